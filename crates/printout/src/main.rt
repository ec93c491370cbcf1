// Prints the one-rule table: its entries in order, one decimal number a line.
#![tactic(auto)]

ghost use Rattle.std.specs.Prelude.{◌≡◌, ◌+◌, ◌≤◌, ◌<◌, length, take};
ghost use Rattle.io.specs.Counts.{IsPrefixLen};
ghost use Rattle.spec.specs.OneRule.{outcome};
ghost use Rattle.text.specs.Putting.{Put};
ghost use Rattle.printout.specs.Printed.{line_of, printed};

use std::io;

// The entry that stands k-th: the kind counts most, then the states of x, y and z.
fn kth(k: usize) -> u8
    requires { k < 256 }
    ensures { result ≡ outcome k }
{
    let kind = k / 64 + 1;
    let a = k / 16 % 4;
    let b = k / 4 % 4;
    let c = k % 4;
    onerule::outcome_of(kind as u8, a as u8, b as u8, c as u8)
}

// Puts the line of a number at `at`, and answers where the next line starts.
fn put_line(out: &mut [u8], at: usize, n: u8) -> usize
    requires { at + length (line_of n) ≤ length out.old }
    ensures { Put out.old at (line_of n) out.new result }
{
    let next = text::put_decimal(out, at, n as usize);
    text::put_byte(out, next, b'\n')
}

// Puts the lines of all entries, and answers how many bytes they are.
fn put_table(out: &mut [u8]) -> usize
    requires { 768 ≤ length out.old }
    ensures prefix_len { IsPrefixLen result out.new }
    ensures out_after { take result out.new ≡ printed 256 }
{
    let mut at = 0;
    for k in 0..256 {
        at = put_line(out, at, kth(k));
    }
    at
}

fn main(rt: HostRuntime) -> io::Result<()> {
    let mut out = [0u8; 768];
    let n = put_table(&mut out);
    rt.write_all(&out[..n])
}
