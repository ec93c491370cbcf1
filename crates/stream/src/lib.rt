// An input of lines, of which some part is at hand: its full lines are answered, as long as there is room for the answers.
#![tactic(auto)]

ghost use Rattle.std.specs.Prelude.{true, false, List, ℕ, ◌+◌, ◌≤◌, ◌<◌, length};
ghost use Rattle.text.specs.Putting.{PutWithin};
ghost use Rattle.fields.specs.Cuts.{longest, until};
ghost use Rattle.calls.specs.Lines.{reply_to};
ghost use Rattle.stream.specs.Input.{Advanced, GoesOn, RoomForLines, Turned};

use crate::front::keep;
use calls::reply::{LINE_FEED, LONGEST, reply};
use fields::cut::end_of;

pub mod front;

// A line of more than the longest is cut to one more than that, which is too long all the same.
const CUT: usize = LONGEST + 1;

// The room that a reply may take.
const REPLY: usize = CUT + 101;

// How far the replies have come: what is left of the input starts at `from`, and they end at `at`. If `skipping`, what is left starts
// inside a line whose reply is already put.
#[derive(Clone, Copy, Debug, PartialEq, Eq)]
struct Reached {
    from: usize,
    at: usize,
    skipping: bool,
}

// What is left at hand after a turn: the first `size` bytes of the buffer. If `skipping`, they start inside a line whose reply is already
// put. The replies end at `at`. If `waits`, there is nothing to do before more is read. Every value means something in either state, so
// they are flags and no cases.
#[derive(Clone, Copy, Debug, PartialEq, Eq)]
pub struct Left {
    pub size: usize,
    pub skipping: bool,
    pub at: usize,
    pub waits: bool,
}

// Puts the reply to a line.
fn put_reply(line: &[u8], text: &mut [u8], at: usize) -> usize
    requires { at + (longest + 102) ≤ length text.old }
    ensures { PutWithin (longest + 102) text.old at (reply_to line.now) text.new result }
{
    let size = line.len().min(CUT);
    reply(&line[..size], text, at)
}

// Puts the replies to full lines, of which there is one at least, at the front of `text`.
fn replies(input: &[u8], text: &mut [u8]) -> Reached
    requires room_for_lines { RoomForLines text.old }
    requires input_in_bounds { until 10 input.now < length input.now }
    ensures { Advanced input.now false text.new result }
{
    let mut from = 0;
    let mut at = 0;
    // by the places of lines, of which no iterator tells where it stopped
    loop {
        let end = end_of(input, from, LINE_FEED);
        if end == input.len() || text.len() - at < REPLY {
            return Reached {
                from,
                at,
                skipping: false,
            };
        }
        at = put_reply(&input[from..end], text, at);
        from = end + 1;
    }
}

// Passes over the rest of a line that is already answered. Nothing is put.
#[tactic(auto, using(fields::proofs::Splitting::until_below, crate::proofs::Advancing::skip_on, crate::proofs::Advancing::skip_end))]
fn skip(input: &[u8]) -> Reached
    requires { 0 < length input.now }
    ensures { (text : List ℕ) → Advanced input.now true text result }
{
    let end = end_of(input, 0, LINE_FEED);
    if end == input.len() {
        return Reached {
            from: end,
            at: 0,
            skipping: true,
        };
    }
    Reached {
        from: end + 1,
        at: 0,
        skipping: false,
    }
}

// Goes on with an input of which this part is at hand, and puts what is to be written at the front of `text`; or does nothing, where
// more input is needed: a line is not full yet, and not too long.
#[tactic(auto, using(fields::proofs::Splitting::until_below, crate::proofs::Advancing::advance_long))]
fn advance(input: &[u8], skipping: bool, text: &mut [u8]) -> Option<Reached>
    requires { RoomForLines text.old }
    ensures { GoesOn input.now skipping text.new result }
{
    if input.is_empty() {
        return None;
    }
    if skipping {
        return Some(skip(input));
    }
    if end_of(input, 0, LINE_FEED) < input.len() {
        return Some(replies(input, text));
    }
    if input.len() <= LONGEST {
        return None;
    }
    Some(Reached {
        from: input.len(),
        at: put_reply(input, text, 0),
        skipping: true,
    })
}

// One turn of a program: puts what is to be written at the front of `text`, and moves what is left of the first `size` bytes to the
// front of `input`. Where the input has `ended`, no more is to come, and a line without its line feed is answered too.
pub fn turn(input: &mut [u8], size: usize, skipping: bool, ended: bool, text: &mut [u8]) -> Left
    requires room_for_lines { RoomForLines text.old }
    requires size_in_bounds { size ≤ length input.old }
    ensures { Turned input.old size skipping ended input.new text.new result }
{
    match advance(&input[..size], skipping, text) {
        Some(reached) => Left {
            size: keep(input, reached.from, size),
            skipping: reached.skipping,
            at: reached.at,
            waits: false,
        },
        None if ended && !skipping => Left {
            size: 0,
            skipping: false,
            at: put_reply(&input[..size], text, 0),
            waits: true,
        },
        None => Left {
            size,
            skipping,
            at: 0,
            waits: true,
        },
    }
}
