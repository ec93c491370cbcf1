// The engine: states are filled until every rule is at rest. Sweeps go over all records; where a few of them don't suffice, a queue of
// the boxes that were settled, and the index of the rules that name each. The states are lent, so that no step copies them.
#![tactic(auto)]

mod queue;
mod step;
mod sweep;

ghost use Rattle.std.specs.Prelude.{◌≡◌, ◌<◌, ◌≤◌, length};
ghost use Rattle.spec.specs.Records.{rules_in};
ghost use Rattle.index.specs.Whole.{Indexed};
ghost use Rattle.engine.specs.Moves.{Cells, Rested};
ghost use Rattle.engine.specs.Queue.{rules_of, Lent, AllWait, Poised};

use index::Index;
use queue::drain;
use records::states::OPEN;
pub use step::Clash;
use sweep::sweep;
use tables::Tables;

// Makes the index and takes the boxes of the queue. Apart from `run`, so that only who needs an index has room for one.
fn run_queue(
    t: Tables,
    states: &mut [u8; 256],
    queue: &mut [u8; 256],
    from: usize,
    to: usize,
) -> Result<(), Clash>
    requires lent { Lent states.old queue.old to }
    requires from_le_to { from ≤ to }
    requires all_wait { AllWait (rules_in t.maker.now t.depot.now) states.old queue.old from to }
    ensures { Rested (rules_in t.entry.maker.now t.entry.depot.now) states.old states.new result }
{
    let mut index = Index::empty();
    index.fill(t);
    drain(&index, states, queue, from, to)
}

// How many sweeps may follow the first. Over few records many of them cost less than one index; over many, one more at most.
fn more_sweeps(records: usize) -> usize {
    if records <= 12 {
        return 20;
    }
    if records <= 40 {
        return 4;
    }
    1
}

// Fills to rest, or answers a clash. Sweeps forth and back settle most sheets and need no index; each box that one settles waits
// for the next, or for the queue.
pub fn run(t: Tables, states: &mut [u8; 256]) -> Result<(), Clash>
    requires cells { Cells states.old }
    ensures { Rested (rules_in t.entry.maker.now t.entry.depot.now) states.old states.new result }
{
    let mut queue = [0; 256];
    let mut start = 0;
    let mut end = sweep(t, false, states, &mut queue, 0)?;
    let mut left = more_sweeps(t.records());
    let mut back = true;
    // a `for` over those left would need this test twice: before each sweep, and after the last
    'sweeps: while start < end {
        if left == 0 {
            return run_queue(t, states, &mut queue, start, end);
        }
        let noted = sweep(t, back, states, &mut queue, end)?;
        start = end;
        end = noted;
        left -= 1;
        back = !back;
    }
    Ok(())
}

// Fills to rest with the tables' index, from any states.
pub fn run_indexed(t: Tables, index: &Index, states: &mut [u8; 256]) -> Result<(), Clash>
    requires indexed { Indexed index.now (rules_in t.maker.now t.depot.now) }
    requires cells { Cells states.old }
    ensures { Rested (rules_of index.now) states.old states.new result }
{
    let mut queue = [0; 256];
    let end = sweep(t, false, states, &mut queue, 0)?;
    drain(index, states, &mut queue, 0, end)
}

// Fills to rest where only box b is settled since every rule was at rest.
pub fn go_on(
    index: &Index,
    b: usize,
    states: &mut [u8; 256],
    queue: &mut [u8; 256],
) -> Result<(), Clash>
    requires indexed { Indexed index.now (rules_of index.now) }
    requires cells { Cells states.old }
    requires b_bound { b < 256 }
    requires poised { Poised (rules_of index.now) states.old b }
    requires queue_len { length queue.old ≡ 256 }
    ensures rested { Rested (rules_of index.now) states.old states.new result }
    ensures queue_len_2 { length queue.new ≡ 256 }
{
    if states[b] == OPEN {
        return Ok(());
    }
    queue[0] = b as u8;
    drain(index, states, queue, 0, 1)
}
