// Why a call is refused: one enum for the paper's table, so that every operation answers a `Result` with it; and any answer as three
// numbers, for a program that prints it and for a caller that has no enums. The first number is 0 where the operation has done what it
// was asked, 1 where it is refused and 2 where a record is broken. The other two are the values: a refusal's number and place, the
// broken record, a count; and 0 where there is none.
#![tactic(auto)]

ghost use Rattle.std.specs.Prelude.{◌≡◌, [], ◌∷◌, ◌+◌, ◌≤◌, length};
ghost use Rattle.text.specs.Putting.{PutWithin};
ghost use Rattle.spec.specs.Refusals.{reason};
ghost use Rattle.refusals.specs.Telling.{refusal_of, refused_numbers, done_with, in_order, refusal_in, refused_words, refusal_room};

use text::put_field;

// In the order of the paper's numbers: of form (1 to 6), Fill's (7, 8), First's and Next's (9), those of why-lists (10, 11).
#[derive(Clone, Copy, Debug, PartialEq, Eq)]
pub enum Refusal {
    BoxCount,
    MakerLength,
    DepotLength,
    RecordCount,
    BadRecord(usize),
    SheetByte(usize),
    GivenLength,
    OutLength,
    ListByte(usize),
    Clash,
    Broken(usize),
    NoList,
    LinesLength,
    WrongLine(usize),
}

pub const DONE: u64 = 0;

pub const REFUSED: u64 = 1;

pub const BROKEN: u64 = 2;

#[derive(Clone, Copy, Debug, PartialEq, Eq)]
pub struct Numbers {
    pub code: u64,
    pub first: u64,
    pub second: u64,
}

pub fn three(code: u64, first: usize, second: usize) -> Numbers
    ensures { in_order result ≡ code ∷ first ∷ second ∷ [] }
{
    Numbers {
        code,
        first: first as u64,
        second: second as u64,
    }
}

// What was asked is done; the value is a count, or 0 where there is none to tell.
pub fn done(count: usize) -> Numbers
    ensures { in_order result ≡ done_with count }
{
    three(DONE, count, 0)
}

pub fn refused(number: usize, place: usize) -> Numbers
    ensures { in_order result ≡ refused_numbers (reason number place) }
{
    three(REFUSED, number, place)
}

impl From<Refusal> for Numbers {
    ghost from_gives = { λ why n. in_order n ≡ refused_numbers (refusal_of why) };

    fn from(why: Refusal) -> Numbers {
        match why {
            Refusal::BoxCount => refused(1, 0),
            Refusal::MakerLength => refused(2, 0),
            Refusal::DepotLength => refused(2, 1),
            Refusal::RecordCount => refused(2, 2),
            Refusal::BadRecord(number) => refused(3, number),
            Refusal::SheetByte(b) => refused(4, b),
            Refusal::GivenLength => refused(5, 0),
            Refusal::OutLength => refused(5, 1),
            Refusal::ListByte(b) => refused(6, b),
            Refusal::Clash => refused(7, 0),
            Refusal::Broken(number) => refused(8, number),
            Refusal::NoList => refused(9, 0),
            Refusal::LinesLength => refused(10, 0),
            Refusal::WrongLine(k) => refused(11, k),
        }
    }
}

// The numbers in their order, for C.
impl From<Numbers> for [u64; 3] {
    ghost from_gives = { λ n l. l ≡ in_order n };

    fn from(n: Numbers) -> [u64; 3] {
        [n.code, n.first, n.second]
    }
}

// Puts a refusal in words: `refused`, its number, its place.
pub fn put_refused(text: &mut [u8], at: usize, said: Numbers) -> usize
    requires { at + refusal_room ≤ length text.old }
    ensures { PutWithin refusal_room text.old at (refused_words (refusal_in said)) text.new result }
{
    let next = put_field(text, at, b"refused ", said.first as usize);
    put_field(text, next, b" ", said.second as usize)
}
