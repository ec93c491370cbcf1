// What is written for a line of text: nothing, the answer to a call, or what is wrong with the line.
ghost use Rattle.std.specs.Prelude.{◌+◌, ◌≤◌, length};
ghost use Rattle.text.specs.Putting.{PutWithin};
ghost use Rattle.calls.specs.Lines.{answer_of, reply_to};

use crate::rows::{Call, answer_fields};
use crate::words::put_error;
use fields::cut::{count_pieces, end_of};
use fields::field::{SPACE, are_fields};
use text::put_byte;

// Longer lines are not taken.
pub const LONGEST: usize = 200000;

pub const LINE_FEED: u8 = b'\n';

// The answer to a line that is neither empty nor begins with #.
fn answer(line: &[u8], text: &mut [u8], at: usize) -> usize
    requires { at + 101 + length line.now ≤ length text.old }
    ensures { PutWithin (100 + length line.now) text.old at (answer_of line.now) text.new result }
{
    if LONGEST < line.len() {
        return put_error(text, at, b"long");
    }
    let end = end_of(line, 0, SPACE);
    let Some(call) = Call::of(&line[..end]) else {
        return put_error(text, at, b"word");
    };
    if count_pieces(line, SPACE) != call.many() + 1 {
        return put_error(text, at, b"fields");
    }
    let from = end + 1;
    if !are_fields(line, from) {
        return put_error(text, at, b"digits");
    }
    answer_fields(call.row(), line, from, text, at)
}

// Puts what is written for a line at `at`: nothing, or its answer and a line feed.
pub fn reply(line: &[u8], text: &mut [u8], at: usize) -> usize
    requires { at + 101 + length line.now ≤ length text.old }
    ensures { PutWithin (101 + length line.now) text.old at (reply_to line.now) text.new result }
{
    let [first, ..] = line else {
        return at;
    };
    if *first == b'#' {
        return at;
    }
    let next = answer(line, text, at);
    put_byte(text, next, LINE_FEED)
}
