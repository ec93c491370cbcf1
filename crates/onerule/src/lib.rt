// The one-rule table: what the rules of one kind make of the states of a record's three boxes.
#![tactic(auto)]

mod entries;

ghost use Rattle.std.specs.Prelude.{◌≡◌, map, ◌<◌};
ghost use Rattle.lemmas.specs.Lists.{upto};
ghost use Rattle.spec.specs.OneRule.{outcome};
ghost use Rattle.onerule.specs.Index.{index_of, Coded};

use entries::OUTCOMES;

// The whole table: entry k is the outcome of k. Every use of a constant array builds it anew, so the constant is used here alone.
fn table() -> [u8; 256]
    ensures { result ≡ map outcome (upto 256) }
{
    OUTCOMES
}

// Where the entry for a kind and three states stands: numbers all, as in the specification's index.
fn index(kind: u8, a: u8, b: u8, c: u8) -> usize
    requires { Coded kind a b c }
    ensures { result ≡ index_of kind a b c }
{
    64 * (usize::from(kind) - 1) + 16 * usize::from(a) + 4 * usize::from(b) + usize::from(c)
}

// The entry at index k.
fn entry(k: usize) -> u8
    requires { k < 256 }
    ensures { result ≡ outcome k }
{
    table()[k]
}

// The entry for a kind and three states: the table is read by these alone.
pub fn outcome_of(kind: u8, a: u8, b: u8, c: u8) -> u8
    requires { Coded kind a b c }
    ensures { result ≡ outcome (index_of kind a b c) }
{
    entry(index(kind, a, b, c))
}
