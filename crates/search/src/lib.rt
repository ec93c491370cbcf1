// The search: it branches at the lowest position still open, out before in, with a fill after each choice. Each trial has a sheet
// of its own. The tables' index is made once, and after a choice filling goes on from the chosen box alone.
#![tactic(auto)]

mod look;

ghost use Rattle.std.specs.Prelude.{◌≡◌, length, set};
ghost use Rattle.spec.specs.Records.{rules_in};
ghost use Rattle.engine.specs.Queue.{rules_of};
ghost use Rattle.search.specs.Look.{Asks, Finds};
ghost use Rattle.search.specs.Ready.{Ready, TrialReady};

use engine::{go_on, run_indexed};
use index::Index;
use look::{is_past_out, lowest_open, standing_to, still_given};
use records::states::{IN, OPEN, OUT};
use sheet::Sheet;
use std::cmp::Ordering;
use tables::Tables;

// The first kit of a sheet on which every rule was at rest, and no box below `from` is open, once `from` has this state; where a list
// is given, which has the same states below `from`, the first strictly after it. The queue is the engine's, lent through.
fn trial(
    index: &Index,
    n: usize,
    sheet: Sheet,
    from: usize,
    state: u8,
    given: Option<&[u8]>,
    queue: &mut [u8; 256],
) -> Option<Sheet>
    requires trial_ready { TrialReady index.now n (set sheet.states from state) from given }
    requires queue_len { length queue.old ≡ 256 }
    ensures answer_to { Finds (Asks (rules_of index.now) n (set sheet.states from state) given.entry) n result }
    ensures queue_len_2 { length queue.new ≡ 256 }
{
    let mut own = sheet.settled(from, state).states;
    let Ok(()) = go_on(index, from, &mut own, queue) else {
        return None;
    };
    let lowest = lowest_open(&own, from, n);
    let standing = standing_to(&own, given, from, lowest.unwrap_or(n));
    if standing == Ordering::Less {
        return None;
    }
    let bound = still_given(given, standing);
    let Some(b) = lowest else {
        // the sheet is the one kit, and the given list is not after itself; `then_some` would copy the sheet once more
        if bound.is_some() {
            return None;
        }
        return Some(Sheet { states: own });
    };
    // a list with b out would stand before the given one
    let least = if is_past_out(bound, b) { IN } else { OUT };
    // out, then in: by one call, so that a trial makes room for one answer
    for choice in least..OPEN {
        if let Some(kit) = trial(index, n, Sheet { states: own }, b, choice, bound, queue) {
            return Some(kit);
        }
    }
    None
}

// The first kit of the sheet, and where a list is given, the first strictly after it.
pub fn search(t: Tables, sheet: Sheet, given: Option<&[u8]>) -> Option<Sheet>
    requires { Ready t.n sheet.states given }
    ensures { Finds (Asks (rules_in t.entry.maker.now t.entry.depot.now) t.entry.n sheet.states given.entry) t.entry.n result }
{
    let mut index = Index::empty();
    index.fill(t);
    let mut filled = sheet;
    let Ok(()) = run_indexed(t, &index, &mut filled.states) else {
        return None;
    };
    let mut queue = [0; 256];
    // box 0 keeps its state: nothing is chosen yet
    let state = filled.states[0];
    trial(&index, t.n, filled, 0, state, given, &mut queue)
}
