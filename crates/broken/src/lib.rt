// Whether a full list fits a record by its kind's truth table, and the first record that it breaks.
#![tactic(auto)]

ghost use Rattle.std.specs.Prelude.{◌≡◌};
ghost use Rattle.spec.specs.Kinds.{kind_of, meaning};
ghost use Rattle.lemmas.specs.Lowest.{if_below};
ghost use Rattle.spec.specs.Records.{record_count};
ghost use Rattle.spec.specs.Fits.{is_in, is_broken, first_broken};
ghost use Rattle.spec.proofs.Accepted.{WholeRecords};
ghost use Rattle.records.specs.Record.{as_rec};
ghost use Rattle.broken.specs.Places.{at_places};

use records::kinds::Kind;
use records::states::IN;
use records::{Record, count, is_rule, record_at};

// The truth tables, by the record's byte, which may be no kind: such a record is never broken. `z` is not looked at where the kind has
// none.
#[tactic(auto, unfolding(spec::specs::Kinds::meaning))]
fn truth(kind: u8, x: bool, y: bool, z: bool) -> bool
    ensures { result ≡ meaning (kind_of kind) (at_places x y z) }
{
    match Kind::try_from(kind) {
        Ok(Kind::Equ) => x == y,
        Ok(Kind::Not) => !x == y,
        Ok(Kind::And) => (x && y) == z,
        Ok(Kind::Or) => (x || y) == z,
        Err(_) => true,
    }
}

// A box past the end is not in: that is where z of kinds 1 and 2 lies.
#[tactic(auto, unfolding(spec::specs::Fits::is_in))]
fn is_in(list: &[u8], b: usize) -> bool
    ensures { result ≡ is_in list.now b }
{
    list.get(b) == Some(&IN)
}

// A record that is no rule is never broken.
#[tactic(auto, using(crate::proofs::Reading::broken_by_boxes))]
fn is_broken(list: &[u8], q: Record) -> bool
    ensures { result ≡ is_broken list.now (as_rec q) }
{
    is_rule(q) && !truth(q.kind, is_in(list, q.x), is_in(list, q.y), is_in(list, q.z))
}

// The lowest broken record.
pub fn first_broken(maker: &[u8], depot: &[u8], list: &[u8]) -> Option<usize>
    requires { WholeRecords maker.now depot.now }
    ensures { result ≡ if_below (first_broken maker.now depot.now list.now) (record_count maker.now depot.now) }
{
    for i in 0..count(maker, depot) {
        if is_broken(list, record_at(maker, depot, i)) {
            return Some(i);
        }
    }
    None
}
