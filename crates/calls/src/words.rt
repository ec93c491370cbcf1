// What an operation says, in words, put into a lent buffer.
ghost use Rattle.std.specs.Prelude.{◌++◌, ◌+◌, ◌*◌, ◌≤◌, length};
ghost use Rattle.text.specs.Putting.{Put, PutWithin};
ghost use Rattle.text.specs.Spelling.{decimal, field};
ghost use Rattle.fits.specs.Answer.{tested_says};
ghost use Rattle.fill.specs.Answer.{filled_says};
ghost use Rattle.lists.specs.Answer.{listed_says};
ghost use Rattle.calls.specs.Words.{words_of, numbers_words, error_for, spaced};
ghost use Rattle.calls.specs.Rows.{verdict_words, handed_words};

use desk::{Refusal, Verdict};
use fields::field::SPACE;
use refusals::{Numbers, REFUSED, put_refused};
use text::{put_byte, put_bytes, put_field, put_hex};

#[tactic(auto, using(text::proofs::Puts::put_then))]
pub fn put_error(text: &mut [u8], at: usize, reason: &[u8]) -> usize
    requires { at + 6 + length reason.now ≤ length text.old }
    ensures { Put text.old at (error_for reason.now) text.new result }
{
    let next = put_bytes(text, at, b"error ");
    put_bytes(text, next, reason)
}

// A space, and the bytes of a buffer.
#[tactic(auto, using(text::proofs::Puts::put_then, text::proofs::Puts::put_length, text::proofs::Rooms::hex_length))]
pub fn put_buffer(text: &mut [u8], at: usize, bytes: &[u8]) -> usize
    requires { at + 2 + 2 * length bytes.now ≤ length text.old }
    ensures { PutWithin (2 + 2 * length bytes.now) text.old at (spaced bytes.now) text.new result }
{
    let next = put_byte(text, at, SPACE);
    put_hex(text, next, bytes)
}

// A refusal, or else the word.
pub fn put_done(text: &mut [u8], at: usize, word: &[u8], said: Numbers) -> usize
    requires { (length word.now ≤ 20) × (at + 80 ≤ length text.old) }
    ensures { PutWithin 80 text.old at (numbers_words said word.now) text.new result }
{
    if said.code == REFUSED {
        return put_refused(text, at, said);
    }
    put_bytes(text, at, word)
}

// A refusal, or else the word and the count that it ends with.
pub fn put_counted(text: &mut [u8], at: usize, word: &[u8], said: Numbers) -> usize
    requires { (length word.now ≤ 20) × (at + 80 ≤ length text.old) }
    ensures { PutWithin 80 text.old at (numbers_words said (word.now ++ decimal said.first)) text.new result }
{
    if said.code == REFUSED {
        return put_refused(text, at, said);
    }
    put_field(text, at, word, said.first as usize)
}

pub fn put_filled(text: &mut [u8], at: usize, answer: Result<usize, Refusal>) -> usize
    requires { at + 80 ≤ length text.old }
    ensures { PutWithin 80 text.old at (words_of (field "filled ") (filled_says answer)) text.new result }
{
    put_counted(text, at, b"filled ", fill::numbers(answer))
}

pub fn put_tested(text: &mut [u8], at: usize, answer: Result<Verdict, Refusal>) -> usize
    requires { at + 80 ≤ length text.old }
    ensures { PutWithin 80 text.old at (words_of verdict_words (tested_says answer)) text.new result }
{
    match answer {
        Ok(Verdict::Broken(number)) => put_field(text, at, b"broken ", number),
        Ok(Verdict::Fits) | Err(_) => put_done(text, at, b"fits", fits::numbers(answer)),
    }
}

pub fn put_handed(text: &mut [u8], at: usize, answer: Result<(), Refusal>) -> usize
    requires { at + 80 ≤ length text.old }
    ensures { PutWithin 80 text.old at (words_of handed_words (listed_says answer)) text.new result }
{
    put_done(text, at, b"list", lists::numbers(answer))
}
