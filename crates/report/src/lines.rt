// The lines of the listing. Each function answers where the next line starts.
ghost use Rattle.std.specs.Prelude.{ℕ, ◌+◌, ◌≤◌, ◌<◌, length, get_or};
ghost use Rattle.text.specs.Spelling.{ascii};
ghost use Rattle.text.specs.Putting.{Put, PutWithin};
ghost use Rattle.refusals.specs.Telling.{refusal_in, refusal_room};
ghost use Rattle.report.specs.Listing.{refused_line, header_line, list_line, end_line};

use refusals::Numbers;
use text::{put_byte, put_bytes, put_digits, put_field};

pub fn put_refused(out: &mut [u8], said: Numbers) -> usize
    requires { refusal_room + 1 ≤ length out.old }
    ensures { PutWithin (refusal_room + 1) out.old 0 (refused_line (refusal_in said)) out.new result }
{
    let next = refusals::put_refused(out, 0, said);
    put_byte(out, next, b'\n')
}

pub fn put_header(out: &mut [u8], n: usize, rules: usize, boxes: usize, left: usize) -> usize
    requires { 112 ≤ length out.old }
    ensures { PutWithin 112 out.old 0 (header_line n rules boxes left) out.new result }
{
    let a = put_field(out, 0, b"positions ", n);
    let b = put_field(out, a, b" rules ", rules);
    let c = put_field(out, b, b" filled ", boxes);
    let d = put_field(out, c, b" open ", left);
    put_byte(out, d, b'\n')
}

pub fn put_list(out: &mut [u8], at: usize, list: &[u8]) -> usize
    requires list_in_bounds { at + length list.now + 1 ≤ length out.old }
    requires by_index { (i : ℕ) → i < length list.now → get_or list.now i 0 < 10 }
    ensures { Put out.old at (list_line list.now) out.new result }
{
    let a = put_digits(out, at, list);
    put_byte(out, a, b'\n')
}

pub fn put_end(out: &mut [u8], at: usize, lists: usize) -> usize
    requires { at + 25 ≤ length out.old }
    ensures { PutWithin 25 out.old at (end_line lists) out.new result }
{
    let a = put_field(out, at, b"end ", lists);
    put_byte(out, a, b'\n')
}

pub fn put_more(out: &mut [u8], at: usize) -> usize
    requires { at + 5 ≤ length out.old }
    ensures { Put out.old at (ascii "more\n") out.new result }
{
    put_bytes(out, at, b"more\n")
}
