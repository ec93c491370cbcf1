// Each operation called on the parts of a call, and its answer put into a lent buffer. A buffer that the operation writes is copied
// from its part to a room of its own.
ghost use Rattle.std.specs.Prelude.{◌+◌, ◌*◌, ◌≤◌, length, get_or};
ghost use Rattle.calls.specs.Rows.{fill_answer, test_answer, show_answer, first_answer, next_answer};
ghost use Rattle.calls.specs.Room.{Answered};

use crate::words::{put_buffer, put_filled, put_handed, put_tested};
use fields::parts::Parts;
use text::{put_bytes, put_hex};

pub fn answer_fill(parts: Parts, out: &mut [u8], text: &mut [u8], at: usize) -> usize
    requires text_in_bounds { at + 100 + 2 * get_or parts.ends 8 0 ≤ length text.old }
    requires ends_in_bounds { get_or parts.ends 8 0 ≤ length out.old }
    ensures { Answered parts.entry.bytes.now parts.entry.ends fill_answer text.old at text.new result }
{
    let n = parts.copy_part(3, out);
    let lent = &mut out[..n];
    let answer = desk::fill(parts.part(0), parts.part(1), parts.part(2), lent);
    let next = put_filled(text, at, answer);
    put_buffer(text, next, lent)
}

pub fn answer_test(parts: Parts, text: &mut [u8], at: usize) -> usize
    requires { at + 100 + 2 * get_or parts.ends 8 0 ≤ length text.old }
    ensures { Answered parts.entry.bytes.now parts.entry.ends test_answer text.old at text.new result }
{
    let answer = desk::test(parts.part(0), parts.part(1), parts.part(2));
    put_tested(text, at, answer)
}

#[tactic(auto, using(text::proofs::Puts::put_then, text::proofs::Rooms::hex_length, crate::proofs::Shown::shown_short))]
pub fn answer_show(parts: Parts, text: &mut [u8], at: usize) -> usize
    requires { at + 100 + 2 * get_or parts.ends 8 0 ≤ length text.old }
    ensures { Answered parts.entry.bytes.now parts.entry.ends show_answer text.old at text.new result }
{
    let shown = desk::show(parts.part(0), parts.part(1), parts.part(2));
    let next = put_bytes(text, at, b"part ");
    put_hex(text, next, shown)
}

pub fn answer_first(parts: Parts, out: &mut [u8], text: &mut [u8], at: usize) -> usize
    requires text_in_bounds { at + 100 + 2 * get_or parts.ends 8 0 ≤ length text.old }
    requires ends_in_bounds { get_or parts.ends 8 0 ≤ length out.old }
    ensures { Answered parts.entry.bytes.now parts.entry.ends first_answer text.old at text.new result }
{
    let n = parts.copy_part(3, out);
    let lent = &mut out[..n];
    let answer = desk::first(parts.part(0), parts.part(1), parts.part(2), lent);
    let next = put_handed(text, at, answer);
    put_buffer(text, next, lent)
}

pub fn answer_next(parts: Parts, out: &mut [u8], text: &mut [u8], at: usize) -> usize
    requires text_in_bounds { at + 100 + 2 * get_or parts.ends 8 0 ≤ length text.old }
    requires ends_in_bounds { get_or parts.ends 8 0 ≤ length out.old }
    ensures { Answered parts.entry.bytes.now parts.entry.ends next_answer text.old at text.new result }
{
    let n = parts.copy_part(4, out);
    let lent = &mut out[..n];
    let answer = desk::next(
        parts.part(0),
        parts.part(1),
        parts.part(2),
        parts.part(3),
        lent,
    );
    let next = put_handed(text, at, answer);
    put_buffer(text, next, lent)
}
