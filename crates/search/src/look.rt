// What the search looks at on a filled sheet: its lowest open box, and how the boxes before that stand to a given list.
ghost use Rattle.std.specs.Prelude.{◌≡◌, true, ◌≤◌, ◌<◌, length, IfSome, IsSomeAnd, get_or, unwrap_or};
ghost use Rattle.kits.specs.Kit.{SettledBelow};
ghost use Rattle.search.specs.Look.{LowestOpen, SameBelow, Stands, bound_of};

use records::states::{OPEN, OUT};
use std::cmp::Ordering;

// The lowest open box below n. The boxes below `from` are settled, and not looked at again.
pub fn lowest_open(states: &[u8], from: usize, n: usize) -> Option<usize>
    requires n_in_bounds { n ≤ length states.now }
    requires from_le_n { from ≤ n }
    requires settled_below { SettledBelow from states.now }
    ensures lowest { LowestOpen states.now n (unwrap_or result n) }
    ensures below { IfSome result (λ b. b < n) }
{
    for b in from..n {
        if states[b] == OPEN {
            return Some(b);
        }
    }
    None
}

// How the first b boxes stand to the given list, which has the same states below `from`: the lowest of them where the two differ
// decides. Where no list is to be passed they are past it from the start.
pub fn standing_to(states: &[u8], given: Option<&[u8]>, from: usize, b: usize) -> Ordering
    requires b_in_bounds { b ≤ length states.now }
    requires b_in_bounds_2 { IfSome given (λ list. b ≤ length list.now) }
    requires from_le_b { from ≤ b }
    requires same_below { IfSome given (λ list. SameBelow from states.now list.now) }
    ensures { Stands states.now given.entry b result }
{
    match given {
        Some(list) => states[from..b].cmp(&list[from..b]),
        None => Ordering::Greater,
    }
}

// The given list, if the boxes that follow have still to pass it.
pub fn still_given<'a>(given: Option<&'a [u8]>, standing: Ordering) -> Option<&'a [u8]>
    ensures { result ≡ bound_of standing given.entry }
{
    match standing {
        Ordering::Equal => given,
        Ordering::Less | Ordering::Greater => None,
    }
}

// Whether a given list is still to be passed and has more than out at box b: each list that has b out stands before it then.
pub fn is_past_out(given: Option<&[u8]>, b: usize) -> bool
    requires { IfSome given (λ list. b < length list.now) }
    ensures { result ≡ true → IsSomeAnd given.entry (λ list. 0 < get_or list.now b 2) }
{
    match given {
        Some(list) => OUT < list[b],
        None => false,
    }
}
