// A line of a why-list: eight bytes, and how they are read.
ghost use Rattle.std.specs.Prelude.{◌≡◌, ◌+◌, ◌*◌, ◌≤◌, length};
ghost use Rattle.whylists.specs.Lines.{line_at};
ghost use Rattle.why.specs.Read.{as_line};

use records::word;

#[derive(Clone, Copy, Debug, PartialEq, Eq)]
pub struct Reason {
    pub b: usize,
    pub state: u8,
    pub byte3: u8,
    pub number: usize,
    pub bytes67: usize,
}

// Line k of a list.
#[tactic(auto, unfolding(whylists::specs::Lines::line_at, whylists::specs::Lines::line_from))]
pub fn line_at(lines: &[u8], k: usize) -> Reason
    requires { 8 * k + 8 ≤ length lines.now }
    ensures { as_line result ≡ line_at lines.now k }
{
    let at = 8 * k;
    Reason {
        b: word(lines[at], lines[at + 1]),
        state: lines[at + 2],
        byte3: lines[at + 3],
        number: word(lines[at + 4], lines[at + 5]),
        bytes67: word(lines[at + 6], lines[at + 7]),
    }
}
