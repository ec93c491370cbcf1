// Characters cut at a mark: a line at its spaces, an input at its line feeds.
ghost use Rattle.std.specs.Prelude.{◌≡◌, ◌+◌, ◌≤◌, length, drop};
ghost use Rattle.fields.specs.Cuts.{longest, cut_at, until};

// How many pieces there are: one more than marks. Counted in 32 bits, so that many characters are compared at a time.
pub fn count_pieces(s: &[u8], mark: u8) -> usize
    requires { length s.now ≤ longest }
    ensures { result ≡ length (cut_at mark s.now) }
{
    let mut n: u32 = 1;
    for c in s {
        n += u32::from(*c == mark);
    }
    n as usize
}

// Where the piece that starts at `from` ends: at the next mark, or at the end of all. `position` is slower where it finds none.
pub fn end_of(s: &[u8], from: usize, mark: u8) -> usize
    requires { from ≤ length s.now }
    ensures { result ≡ from + until mark (drop from s.now) }
{
    from + s[from..].iter().take_while(|c| **c != mark).count()
}
