// Which of the twenty rules fire on a record's three states: a match over kind and states.
// AND 2 and the like are the rules' names in source document 000, Table 1. An arm `_` on a state is for open, and for OUT or IN
// where they have no arm beside it.
#![tactic(auto)]

ghost use Rattle.std.specs.Prelude.{◌≡◌, true};
ghost use Rattle.fire.specs.States.{three, list_of, OnSheet, closed_alone, Fired, Rests, stirs_at};

use records::kinds::Kind;
use records::states::{BOTH, IN, OUT};

#[derive(Clone, Copy, Debug, PartialEq, Eq)]
pub struct States {
    pub x: u8,
    pub y: u8,
    pub z: u8,
}

// A rule gave the opposite of a state. From both facts of one box the rules give both of every box that the record names.
// Kinds 1 and 2 name no z and hand theirs in; the others hand in BOTH.
fn both(z: u8) -> States
    ensures { list_of result ≡ three 3 3 z }
{
    States {
        x: BOTH,
        y: BOTH,
        z,
    }
}

// The rules of EQU: x = y.
#[tactic(auto, using(crate::proofs::Agree::equ_closed, std::proofs::lemmas::Bool::Decides::nat_tests))]
fn fire_equ(x: u8, y: u8, z: u8) -> States
    requires { OnSheet x y z }
    ensures { list_of result ≡ closed_alone 1 x y z }
{
    match x {
        OUT => match y {
            IN => both(z), // EQU 3: x out gives y out, but y is in
            _ => States { x, y: OUT, z }, // EQU 3: x out gives y out
        },
        IN => match y {
            OUT => both(z), // EQU 1: x in gives y in, but y is out
            _ => States { x, y: IN, z }, // EQU 1: x in gives y in
        },
        _ => match y {
            OUT => States { x: OUT, y, z }, // EQU 4: y out gives x out
            IN => States { x: IN, y, z }, // EQU 2: y in gives x in
            _ => States { x, y, z }, // none fires
        },
    }
}

// The rules of NOT: not x = y.
#[tactic(auto, using(crate::proofs::Agree::not_closed, std::proofs::lemmas::Bool::Decides::nat_tests))]
fn fire_not(x: u8, y: u8, z: u8) -> States
    requires { OnSheet x y z }
    ensures { list_of result ≡ closed_alone 2 x y z }
{
    match x {
        OUT => match y {
            OUT => both(z), // NOT 2: x out gives y in, but y is out
            _ => States { x, y: IN, z }, // NOT 2: x out gives y in
        },
        IN => match y {
            IN => both(z), // NOT 1: x in gives y out, but y is in
            _ => States { x, y: OUT, z }, // NOT 1: x in gives y out
        },
        _ => match y {
            OUT => States { x: IN, y, z }, // NOT 4: y out gives x in
            IN => States { x: OUT, y, z }, // NOT 3: y in gives x out
            _ => States { x, y, z }, // none fires
        },
    }
}

// The rules of AND: x and y = z.
#[tactic(auto, using(crate::proofs::Agree::and_closed, std::proofs::lemmas::Bool::Decides::nat_tests))]
fn fire_and(x: u8, y: u8, z: u8) -> States
    requires { OnSheet x y z }
    ensures { list_of result ≡ closed_alone 3 x y z }
{
    match z {
        OUT => match x {
            IN => match y {
                IN => both(BOTH), // AND 1: x in and y in give z in, but z is out
                _ => States { x, y: OUT, z }, // AND 2: x in and z out give y out
            },
            _ => match y {
                IN => States { x: OUT, y, z }, // AND 3: y in and z out give x out
                _ => States { x, y, z }, // nothing new: from z out alone nothing follows
            },
        },
        IN => match x {
            OUT => both(BOTH), // AND 6: z in gives x in and y in, but x is out
            _ => match y {
                OUT => both(BOTH), // AND 6: z in gives x in and y in, but y is out
                _ => States { x: IN, y: IN, z }, // AND 6: z in gives x in and y in
            },
        },
        _ => match x {
            OUT => States { x, y, z: OUT }, // AND 4: x out gives z out
            IN => match y {
                OUT => States { x, y, z: OUT }, // AND 5: y out gives z out
                IN => States { x, y, z: IN }, // AND 1: x in and y in give z in
                _ => States { x, y, z }, // none fires
            },
            _ => match y {
                OUT => States { x, y, z: OUT }, // AND 5: y out gives z out
                _ => States { x, y, z }, // none fires
            },
        },
    }
}

// The rules of OR: x or y = z.
#[tactic(auto, using(crate::proofs::Agree::or_closed, std::proofs::lemmas::Bool::Decides::nat_tests))]
fn fire_or(x: u8, y: u8, z: u8) -> States
    requires { OnSheet x y z }
    ensures { list_of result ≡ closed_alone 4 x y z }
{
    match z {
        OUT => match x {
            IN => both(BOTH), // OR 6: z out gives x out and y out, but x is in
            _ => match y {
                IN => both(BOTH), // OR 6: z out gives x out and y out, but y is in
                _ => States { x: OUT, y: OUT, z }, // OR 6: z out gives x out and y out
            },
        },
        IN => match x {
            OUT => match y {
                OUT => both(BOTH), // OR 2: x out and y out give z out, but z is in
                _ => States { x, y: IN, z }, // OR 3: x out and z in give y in
            },
            _ => match y {
                OUT => States { x: IN, y, z }, // OR 4: y out and z in give x in
                _ => States { x, y, z }, // nothing new: from z in alone nothing follows
            },
        },
        _ => match x {
            OUT => match y {
                OUT => States { x, y, z: OUT }, // OR 2: x out and y out give z out
                IN => States { x, y, z: IN }, // OR 5: y in gives z in
                _ => States { x, y, z }, // none fires
            },
            IN => States { x, y, z: IN }, // OR 1: x in gives z in
            _ => match y {
                IN => States { x, y, z: IN }, // OR 5: y in gives z in
                _ => States { x, y, z }, // none fires
            },
        },
    }
}

// The closure of the three states under one record of this kind alone. A z that the kind doesn't name comes back as it was,
// and a number that is no kind has no rules. The kind is the table's byte, of which the promise speaks; so in what follows.
pub fn fire(kind: u8, x: u8, y: u8, z: u8) -> States
    requires { OnSheet x y z }
    ensures { Fired kind x y z result }
{
    match Kind::try_from(kind) {
        Ok(Kind::Equ) => fire_equ(x, y, z),
        Ok(Kind::Not) => fire_not(x, y, z),
        Ok(Kind::And) => fire_and(x, y, z),
        Ok(Kind::Or) => fire_or(x, y, z),
        Err(_) => States { x, y, z },
    }
}

// The states at which a rule of this kind gives something new, as bits: bit 16x + 4y + z for the states x, y, z. Of EQU and NOT the
// state of z is of no matter.
fn stirs(kind: u8) -> u64
    ensures { result ≡ stirs_at kind }
{
    match Kind::try_from(kind) {
        Ok(Kind::Equ) => 0x7707070770,
        Ok(Kind::Not) => 0x7707700707,
        Ok(Kind::And) => 0x23603560666,
        Ok(Kind::Or) => 0x15305550356,
        Err(_) => 0,
    }
}

// Whether no rule of this kind gives anything new: so it is with most records, most of the time, and this look has no jumps.
#[tactic(auto, using(crate::proofs::AtRest::bit_rests))]
pub fn at_rest(kind: u8, x: u8, y: u8, z: u8) -> bool
    requires { OnSheet x y z }
    ensures { result ≡ true → Rests kind x y z }
{
    let bit = 16 * x + 4 * y + z;
    (stirs(kind) >> bit) % 2 == 0
}
