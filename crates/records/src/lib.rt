// A rule record: where it lies in the two tables, its eight bytes read by value, whether it is bad, and whether it is a rule.
#![tactic(auto)]

pub mod kinds;
pub mod states;

ghost use Rattle.std.specs.Prelude.{◌≡◌, ◌+◌, ◌*◌, ◌^◌, ◌≤◌, ◌<◌, length};
ghost use Rattle.spec.specs.Records.{rec_from, record_at, record_count, is_rule, bad};
ghost use Rattle.spec.specs.Fits.{record_part};
ghost use Rattle.spec.proofs.Accepted.{WholeRecords};
ghost use Rattle.records.specs.Record.{as_rec, part_of};

use kinds::{has_z, is_kind};

// The bytes of a record.
const SIZE: usize = 8;

// What stands for z where a kind has none.
const NO_BOX: usize = 65535;

// The eight bytes of a record: kind, byte 1, and the boxes x, y, z.
#[derive(Clone, Copy, Debug, PartialEq, Eq)]
pub struct Record {
    // the table's byte and no `Kind`, since a record may be bad
    pub kind: u8,
    pub byte1: u8,
    pub x: usize,
    pub y: usize,
    pub z: usize,
}

// Where a record starts: at which byte of the maker's table, or of the depot's.
#[derive(Clone, Copy, Debug, PartialEq, Eq)]
pub enum Where {
    Maker(usize),
    Depot(usize),
}

// How many records both tables hold together.
#[tactic(auto, unfolding(spec::specs::Records::record_count))]
pub fn count(maker: &[u8], depot: &[u8]) -> usize
    ensures { result ≡ record_count maker.now depot.now }
{
    maker.len() / SIZE + depot.len() / SIZE
}

// The tables act as one, so a number past the maker's records is one of the depot's. The number of the record's first byte is to
// fit a usize, as it does for every record of two tables in memory.
#[tactic(auto, unfolding(spec::specs::Fits::record_part))]
pub fn place_of(maker: &[u8], number: usize) -> Where
    requires { 8 * number < 2 ^ 64 }
    ensures { part_of result ≡ record_part maker.now number }
{
    let first = SIZE * number;
    if first < maker.len() {
        Where::Maker(first)
    } else {
        Where::Depot(first - maker.len())
    }
}

// Two bytes, little-endian.
pub fn word(low: u8, high: u8) -> usize
    ensures { result ≡ low + 256 * high }
{
    usize::from(u16::from_le_bytes([low, high]))
}

#[tactic(auto, unfolding(spec::specs::Records::rec_from))]
fn record_from(t: &[u8], at: usize) -> Record
    requires { at + 8 ≤ length t.now }
    ensures { as_rec result ≡ rec_from t.now at }
{
    Record {
        kind: t[at],
        byte1: t[at + 1],
        x: word(t[at + 2], t[at + 3]),
        y: word(t[at + 4], t[at + 5]),
        z: word(t[at + 6], t[at + 7]),
    }
}

pub fn record_at(maker: &[u8], depot: &[u8], number: usize) -> Record
    requires whole_records { WholeRecords maker.now depot.now }
    requires number_bound { number < record_count maker.now depot.now }
    ensures { as_rec result ≡ record_at maker.now depot.now number }
{
    match place_of(maker, number) {
        Where::Maker(start) => record_from(maker, start),
        Where::Depot(start) => record_from(depot, start),
    }
}

// Whether a record counts as a rule: every one does. Whoever goes through the rules asks here.
#[tactic(auto, unfolding(spec::specs::Records::is_rule))]
pub fn is_rule(q: Record) -> bool
    ensures { result ≡ is_rule (as_rec q) }
{
    true
}

// First the reasons that a record of any kind may have, then those on its z.
#[tactic(auto, using(crate::proofs::Reasons::why_bad, std::proofs::lemmas::Bool::Decides::nat_tests))]
pub fn is_bad(n: usize, q: Record) -> bool
    ensures { result ≡ bad n (as_rec q) }
{
    if !is_kind(q.kind) || q.byte1 != 0 || n <= q.x || n <= q.y || q.x == q.y {
        return true;
    }
    if has_z(q.kind) {
        n <= q.z || q.x == q.z || q.y == q.z
    } else {
        q.z != NO_BOX
    }
}
