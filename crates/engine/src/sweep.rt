// Sweeps: every record of the tables has its step once, forward or back. A sweep needs no index, and leaves most sheets at rest.
ghost use Rattle.std.specs.Prelude.{◌<◌};
ghost use Rattle.spec.specs.Records.{is_rule, rules_in};
ghost use Rattle.records.specs.Record.{as_rec};
ghost use Rattle.engine.specs.Queue.{Lent, StepInput, RecordStepped, IsNext, Swept};

use crate::step::{Clash, step};
use fire::at_rest;
use records::{Record, is_rule};
use tables::Tables;

// A record of the tables has its step. One that is no rule is passed over, and one at rest, as most are, told by a look.
fn step_record(
    q: Record,
    states: &mut [u8; 256],
    queue: &mut [u8; 256],
    tail: usize,
) -> Result<usize, Clash>
    requires { StepInput (as_rec q) states.old queue.old tail }
    ensures { RecordStepped (is_rule (as_rec q)) (as_rec q) states.old states.new
        queue.old queue.new tail result }
{
    if !is_rule(q) {
        return Ok(tail);
    }
    let kind = q.kind;
    let x = q.x;
    let y = q.y;
    let z = q.z % 256;
    if at_rest(kind, states[x], states[y], states[z]) {
        return Ok(tail);
    }
    step(kind, x, y, z, states, queue, tail)
}

// The number of the record that comes after i others.
fn turn(back: bool, all: usize, i: usize) -> usize
    requires i_bound { i < all }
    ensures within { result < all }
    ensures next { IsNext back all i result }
{
    if back { all - 1 - i } else { i }
}

// Steps through every record once, forward, or back where `back` says so. Part of its callers, so that the first sweep of a fill, which
// is all that most sheets need, doesn't ask at each record which way it goes.
#[inline(always)]
pub fn sweep(
    t: Tables,
    back: bool,
    states: &mut [u8; 256],
    queue: &mut [u8; 256],
    start: usize,
) -> Result<usize, Clash>
    requires lent { Lent states.old queue.old start }
    ensures { Swept (rules_in t.entry.maker.now t.entry.depot.now) states.old states.new
        queue.old queue.new start result }
{
    let all = t.records();
    let mut tail = start;
    for i in 0..all {
        tail = step_record(t.record(turn(back, all, i)), states, queue, tail)?;
    }
    Ok(tail)
}
