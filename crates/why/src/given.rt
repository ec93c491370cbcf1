// What one rule of a record gives an open box, from the states of the record's other boxes: a match over kind and states.
ghost use Rattle.std.specs.Prelude.{◌≡◌, true, false, ◌≤◌};
ghost use Rattle.spec.specs.Records.{bad};
ghost use Rattle.spec.specs.Rounds.{code};
ghost use Rattle.records.specs.Record.{as_rec};
ghost use Rattle.fire.specs.States.{OnSheet};
ghost use Rattle.engine.specs.Moves.{Cells};
ghost use Rattle.why.specs.Given.{given_alone};
ghost use Rattle.whylists.specs.Lines.{given_by};

use records::kinds::{Kind, has_z};
use records::states::{IN, OPEN, OUT};
use records::{Record, is_rule};

// What x gets from y and z, and y from x and z: the rules are alike for both. The kind is the record's byte, as `fire` takes it.
#[tactic(auto, using(crate::proofs::Trees::side_given, std::proofs::lemmas::Bool::Decides::nat_tests))]
fn given_side(kind: u8, other: u8, z: u8) -> u8
    requires { OnSheet 2 other z }
    ensures value { result ≡ given_alone 0 kind 2 other z }
    ensures upper_bound { result ≤ 2 }
{
    match Kind::try_from(kind) {
        Ok(Kind::Equ) => other, // EQU 1 to 4
        Ok(Kind::Not) => match other {
            OUT => IN, // NOT 2, 4
            IN => OUT, // NOT 1, 3
            _ => OPEN,
        },
        Ok(Kind::And) => match z {
            IN => IN, // AND 6
            OUT => match other {
                IN => OUT, // AND 2, 3
                _ => OPEN,
            },
            _ => OPEN,
        },
        Ok(Kind::Or) => match z {
            OUT => OUT, // OR 6
            IN => match other {
                OUT => IN, // OR 3, 4
                _ => OPEN,
            },
            _ => OPEN,
        },
        Err(_) => OPEN,
    }
}

// What z gets from x and y.
#[tactic(auto, using(crate::proofs::Trees::z_given, std::proofs::lemmas::Bool::Decides::nat_tests))]
fn given_z(kind: u8, x: u8, y: u8) -> u8
    requires { OnSheet x y 2 }
    ensures value { result ≡ given_alone 2 kind x y 2 }
    ensures upper_bound { result ≤ 2 }
{
    match Kind::try_from(kind) {
        Ok(Kind::And) => match x {
            OUT => OUT, // AND 4
            IN => y, // AND 1, 5
            _ => match y {
                OUT => OUT, // AND 5
                _ => OPEN,
            },
        },
        Ok(Kind::Or) => match x {
            IN => IN, // OR 1
            OUT => y, // OR 2, 5
            _ => match y {
                IN => IN, // OR 5
                _ => OPEN,
            },
        },
        Ok(Kind::Equ | Kind::Not) | Err(_) => OPEN,
    }
}

// What one rule of the record gives box b; open where none gives it a state. What stands at a z that is missing is of no matter.
#[tactic(auto, using(crate::proofs::Asked::asked, theory::proofs::Places::good_x, theory::proofs::Places::good_y))]
pub fn given(q: Record, states: &[u8; 256], b: usize) -> u8
    requires q_value { bad 256 (as_rec q) ≡ false }
    requires cells { Cells states.now }
    ensures value { result ≡ code (given_by states.now b false (as_rec q)) (given_by states.now b true (as_rec q)) }
    ensures upper_bound { result ≤ 2 }
{
    if !is_rule(q) {
        return OPEN;
    }
    let z = q.z % 256;
    if b == q.x {
        given_side(q.kind, states[q.y], states[z])
    } else if b == q.y {
        given_side(q.kind, states[q.x], states[z])
    } else if has_z(q.kind) && b == z {
        given_z(q.kind, states[q.x], states[q.y])
    } else {
        OPEN
    }
}
