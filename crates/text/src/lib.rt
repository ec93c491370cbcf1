// Bytes put into a lent buffer, one after the other: each function answers where the next byte goes.
#![tactic(auto, using(crate::proofs::Puts::put_length))]

ghost use Rattle.std.specs.Prelude.{◌≡◌, ◌∷◌, [], ◌++◌, ℕ, ◌+◌, ◌≤◌, ◌<◌, length, get_or};
ghost use Rattle.text.specs.Spelling.{decimal, digits_of, hex_digit, hex_pair, hex_of};
ghost use Rattle.text.specs.Putting.{Put, PutWithin};

pub fn put_byte(out: &mut [u8], at: usize, b: u8) -> usize
    requires { at < length out.old }
    ensures { Put out.old at (b ∷ []) out.new result }
{
    out[at] = b;
    at + 1
}

pub fn put_bytes(out: &mut [u8], at: usize, src: &[u8]) -> usize
    requires { at + length src.now ≤ length out.old }
    ensures { Put out.old at src.now out.new result }
{
    let mut next = at;
    for b in src {
        next = put_byte(out, next, *b);
    }
    next
}

// Bytes below 10, as ASCII digits. A helper shared with `put_bytes` would take a closure with its contract, longer than this loop.
pub fn put_digits(out: &mut [u8], at: usize, src: &[u8]) -> usize
    requires src_in_bounds { at + length src.now ≤ length out.old }
    requires by_index { (i : ℕ) → i < length src.now → get_or src.now i 0 < 10 }
    ensures { Put out.old at (digits_of src.now) out.new result }
{
    let mut next = at;
    for b in src {
        next = put_byte(out, next, b'0' + *b);
    }
    next
}

fn hex_digit(d: u8) -> u8
    requires { d < 16 }
    ensures { result ≡ hex_digit d }
{
    if d < 10 { b'0' + d } else { b'a' - 10 + d }
}

fn put_hex_pair(out: &mut [u8], at: usize, b: u8) -> usize
    requires { at + 2 ≤ length out.old }
    ensures { Put out.old at (hex_pair b) out.new result }
{
    out[at] = hex_digit(b / 16);
    out[at + 1] = hex_digit(b % 16);
    at + 2
}

// Two lowercase hexadecimal digits a byte; a dot for no bytes at all.
pub fn put_hex(out: &mut [u8], at: usize, src: &[u8]) -> usize
    requires { at + length (hex_of src.now) ≤ length out.old }
    ensures { Put out.old at (hex_of src.now) out.new result }
{
    if src.is_empty() {
        return put_byte(out, at, b'.');
    }
    let mut next = at;
    for b in src {
        next = put_hex_pair(out, next, *b);
    }
    next
}

// A number in decimal: the last digit after all the others.
pub fn put_decimal(out: &mut [u8], at: usize, n: usize) -> usize
    requires { at + length (decimal n) ≤ length out.old }
    ensures { Put out.old at (decimal n) out.new result }
{
    if n < 10 {
        return put_byte(out, at, b'0' + n as u8);
    }
    let next = put_decimal(out, at, n / 10);
    put_byte(out, next, b'0' + (n % 10) as u8)
}

// A word with what parts it from the number, and the number.
pub fn put_field(out: &mut [u8], at: usize, word: &[u8], n: usize) -> usize
    requires { at + (length word.now + 20) ≤ length out.old }
    ensures { PutWithin (length word.now + 20) out.old at (word.now ++ decimal n) out.new result }
{
    let next = put_bytes(out, at, word);
    put_decimal(out, next, n)
}
