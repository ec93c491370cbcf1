// The queue: the boxes that were settled are taken one after the other, and the rules that name each have their step, by the index.
ghost use Rattle.std.specs.Prelude.{◌≡◌, ◌<◌, ◌≤◌, length};
ghost use Rattle.index.specs.Index.{rule_at};
ghost use Rattle.index.specs.Whole.{Indexed};
ghost use Rattle.engine.specs.Moves.{Rested};
ghost use Rattle.engine.specs.Queue.{rules_of, Lent, StepInput, Stepped, AllWait, Visited};

use crate::step::{Clash, step};
use fire::at_rest;
use index::{Index, box_of};

// A packed rule has its step; one at rest is told by a look.
fn step_rule(
    index: &Index,
    j: usize,
    states: &mut [u8; 256],
    queue: &mut [u8; 256],
    tail: usize,
) -> Result<usize, Clash>
    requires packed_len { length index.now.packed ≡ 4096 }
    requires j_bound { j < 1024 }
    requires step_input { StepInput (rule_at index.now.packed j) states.old queue.old tail }
    ensures { Stepped (rule_at index.now.packed j) states.old states.new
        queue.old queue.new tail result }
{
    let at = 4 * j;
    let x = box_of(index.packed[at + 1]);
    let y = box_of(index.packed[at + 2]);
    let z = box_of(index.packed[at + 3]);
    let kind = index.packed[at];
    if at_rest(kind, states[x], states[y], states[z]) {
        return Ok(tail);
    }
    step(kind, x, y, z, states, queue, tail)
}

// Steps through the rules that name box b, along its chain.
fn visit(
    index: &Index,
    b: usize,
    states: &mut [u8; 256],
    queue: &mut [u8; 256],
    start: usize,
) -> Result<usize, Clash>
    requires indexed { Indexed index.now (rules_of index.now) }
    requires b_bound { b < 256 }
    requires lent { Lent states.old queue.old start }
    ensures { Visited (rules_of index.now) b states.old states.new
        queue.old queue.new start result }
{
    let mut tail = start;
    let mut e = index.first[b] as usize;
    // a chain has no count to go by
    while e != 0 {
        tail = step_rule(index, e / 4, states, queue, tail)?;
        e = index.next[e] as usize;
    }
    Ok(tail)
}

// Takes the boxes of the queue one after the other, until none is left. No box is stored with both facts, so a clash ends it.
pub fn drain(
    index: &Index,
    states: &mut [u8; 256],
    queue: &mut [u8; 256],
    from: usize,
    to: usize,
) -> Result<(), Clash>
    requires indexed { Indexed index.now (rules_of index.now) }
    requires lent { Lent states.old queue.old to }
    requires from_le_to { from ≤ to }
    requires all_wait { AllWait (rules_of index.now) states.old queue.old from to }
    ensures rested { Rested (rules_of index.now) states.old states.new result }
    ensures queue_len { length queue.new ≡ 256 }
{
    let mut head = from;
    let mut tail = to;
    // the queue grows while its boxes are taken, so no range holds their places
    while head < tail {
        tail = visit(index, box_of(queue[head]), states, queue, tail)?;
        head += 1;
    }
    Ok(())
}
