// One record's step on the states. A box that it settles is noted at the end of a queue, so that the records that name the box can
// have their step after it. A clash ends the fill, so that no box is ever stored with both facts.
ghost use Rattle.std.specs.Prelude.{◌≡◌, ◌<◌, set};
ghost use Rattle.index.specs.Index.{rule_of};
ghost use Rattle.engine.specs.Queue.{Settling, Queued, StepInput, Stepped};

use fire::fire;
use records::kinds::has_z;
use records::states::BOTH;

// A box would get both facts. A step that meets none answers the queue's end.
#[derive(Clone, Copy, Debug, PartialEq, Eq)]
pub struct Clash;

// Box b gets a state that it has already, or had open until now; then it is noted.
fn settle(states: &mut [u8; 256], queue: &mut [u8; 256], tail: usize, b: usize, state: u8) -> usize
    requires { Settling states.old queue.old tail b state }
    ensures { (states.new ≡ set states.old b state) ×
        Queued states.old states.new queue.old queue.new tail result }
{
    if states[b] == state {
        return tail;
    }
    states[b] = state;
    queue[tail] = b as u8;
    tail + 1
}

// Fires every rule of one record, whose kind is the byte that `fire` takes. A z that is missing may be any box: its state is read, is
// of no matter, and is left as it is.
pub fn step(
    kind: u8,
    x: usize,
    y: usize,
    z: usize,
    states: &mut [u8; 256],
    queue: &mut [u8; 256],
    tail: usize,
) -> Result<usize, Clash>
    requires step_input { StepInput (rule_of kind x y z) states.old queue.old tail }
    requires z_bound { z < 256 }
    ensures { Stepped (rule_of kind x y z) states.old states.new queue.old queue.new tail result }
{
    let new = fire(kind, states[x], states[y], states[z]);
    let c = new.x;
    let d = new.y;
    let e = new.z;
    // from both facts of one box both of every box follow, so x alone tells
    let told = c;
    if told == BOTH {
        return Err(Clash);
    }
    let after_x = settle(states, queue, tail, x, c);
    let after_y = settle(states, queue, after_x, y, d);
    if has_z(kind) {
        return Ok(settle(states, queue, after_y, z, e));
    }
    Ok(after_y)
}
