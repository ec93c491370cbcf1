// The next line of our list: the lowest box that now follows, by the lowest record that gives it.
ghost use Rattle.std.specs.Prelude.{◌≡◌, false, ◌<◌};
ghost use Rattle.lemmas.specs.Lowest.{lowest};
ghost use Rattle.spec.specs.Records.{bad, record_count};
ghost use Rattle.records.specs.Record.{as_rec};
ghost use Rattle.engine.specs.Moves.{Cells};
ghost use Rattle.why.specs.Next.{offers, Offered, NextGiven};

use crate::given::given;
use fire::at_rest;
use records::Record;
use records::kinds::has_z;
use records::states::OPEN;
use tables::Tables;

#[derive(Clone, Copy, Debug, PartialEq, Eq)]
pub struct Next {
    pub b: usize,
    pub number: usize,
}

// Box c, where it is below the lowest so far, open, and given a state by the record.
#[tactic(auto, using(crate::proofs::Offers::offer_tests))]
fn offer(q: Record, states: &[u8; 256], c: usize, best: usize) -> usize
    requires q_value { bad 256 (as_rec q) ≡ false }
    requires cells { Cells states.now }
    requires c_bound { c < 256 }
    ensures { Offered states.now (as_rec q) c best result }
{
    if c < best && states[c] == OPEN && given(q, states, c) != OPEN {
        c
    } else {
        best
    }
}

// The lowest box below a bound that the record gives a state. Where it gives none, the bound stands, and the search goes on below it
// at the next record. A record at rest, as most are, is told by a look.
#[tactic(auto, using(theory::proofs::Places::good_x, theory::proofs::Places::good_y))]
fn lowest_given(q: Record, states: &[u8; 256], below: usize) -> usize
    requires q_value { bad 256 (as_rec q) ≡ false }
    requires cells { Cells states.now }
    ensures { result ≡ lowest (offers states.now (as_rec q)) below }
{
    let z = q.z % 256;
    if at_rest(q.kind, states[q.x], states[q.y], states[z]) {
        return below;
    }
    let by_x = offer(q, states, q.x, below);
    let by_y = offer(q, states, q.y, by_x);
    if has_z(q.kind) {
        return offer(q, states, z, by_y);
    }
    by_y
}

// The lowest box that now follows, and the lowest record that gives it.
pub fn next_line(t: Tables, states: &[u8; 256]) -> Option<Next>
    requires { Cells states.now }
    ensures { NextGiven t.entry.maker.now t.entry.depot.now states.now t.entry.n
        (record_count t.entry.maker.now t.entry.depot.now) result }
{
    let mut next = None;
    let mut below = t.n;
    for number in 0..t.records() {
        let b = lowest_given(t.record(number), states, below);
        if b < below {
            next = Some(Next { b, number });
            below = b;
        }
    }
    next
}
