// The calls, a row of their table each: the word, how many fields follow it, and the operation that answers.
ghost use Rattle.std.specs.Prelude.{◌≡◌, ◌+◌, ◌*◌, ◌≤◌, length, get_or};
ghost use Rattle.fields.specs.Cuts.{longest};
ghost use Rattle.fields.specs.Ends.{RightFields};
ghost use Rattle.calls.specs.Room.{row_number, row_found, Answered, RowAnswered, CallAnswered};
ghost use Rattle.calls.specs.Rows.{row_at, row_of};

use crate::operations::{answer_fill, answer_first, answer_next, answer_show, answer_test};
use fields::parts::{Parts, take_parts};
use fields::word::place_among;

pub const ROWS: usize = 5;

#[derive(Clone, Copy, Debug, PartialEq, Eq)]
pub enum Call {
    Fill,
    Test,
    Show,
    First,
    Next,
}

// In the order of their words, which stand in one string so that a word is looked for by the spaces between them.
const CALLS: [Call; ROWS] = [Call::Fill, Call::Test, Call::Show, Call::First, Call::Next];

impl Call {
    pub fn of(word: &[u8]) -> Option<Call>
        ensures { row_found result ≡ row_of word.now }
    {
        let k = place_among(word, b"fill test show first next")?;
        Some(CALLS[k])
    }

    // The number of its row in the table.
    pub fn row(self) -> usize
        ensures { result ≡ row_number self }
    {
        match self {
            Call::Fill => 0,
            Call::Test => 1,
            Call::Show => 2,
            Call::First => 3,
            Call::Next => 4,
        }
    }

    // How many fields follow the word.
    #[tactic(auto, unfolding(crate::specs::Rows::row_at))]
    pub fn many(self) -> usize
        ensures { result ≡ (row_at (row_number self)).many }
    {
        match self {
            Call::Test | Call::Show => 3,
            Call::Fill | Call::First => 4,
            Call::Next => 5,
        }
    }

    // The answer to the parts. An operation that writes is lent the front of `out`, and one that writes two buffers that of `more` too.
    #[tactic(auto, unfolding(crate::specs::Rows::row_at))]
    fn answer(
        self,
        parts: Parts,
        out: &mut [u8],
        more: &mut [u8],
        text: &mut [u8],
        at: usize,
    ) -> usize
        requires text_in_bounds { at + 100 + 2 * get_or parts.ends 8 0 ≤ length text.old }
        requires ends_in_bounds { (get_or parts.ends 8 0 ≤ length out.old) × (get_or parts.ends 8 0 ≤ length more.old) }
        ensures { Answered parts.entry.bytes.now parts.entry.ends (row_at (row_number self)).answer text.old at text.new result }
    {
        match self {
            Call::Fill => answer_fill(parts, out, text, at),
            Call::Test => answer_test(parts, text, at),
            Call::Show => answer_show(parts, text, at),
            Call::First => answer_first(parts, out, text, at),
            Call::Next => answer_next(parts, out, text, at),
        }
    }

    // Puts the answer to the fields. The rooms of nearly all lines are small, and take little time to make.
    pub fn answer_fields(self, line: &[u8], from: usize, text: &mut [u8], at: usize) -> usize
        requires right_fields { RightFields line.now from }
        requires line_len_bound { (length line.now ≤ longest) × (at + 100 + length line.now ≤ length text.old) }
        ensures { CallAnswered self line.now from text.old at text.new result }
    {
        if line.len() <= 2000 {
            return answer_with::<1000>(self, line, from, text, at);
        }
        answer_with::<100000>(self, line, from, text, at)
    }
}

// Puts the answer to the fields. There is room for N bytes of them, two characters a byte, and for as many in each lent buffer. The rooms
// stand in this function's own frame: in a caller's, every line would pay for the largest.
#[inline(never)]
fn answer_with<const N: usize>(
    call: Call,
    line: &[u8],
    from: usize,
    text: &mut [u8],
    at: usize,
) -> usize
    requires room_bound { N ≤ longest }
    requires right_fields { RightFields line.now from }
    requires line_len_bound { (length line.now ≤ 2 * N) × (at + 100 + length line.now ≤ length text.old) }
    ensures { CallAnswered call line.now from text.old at text.new result }
{
    let mut bytes = [0; N];
    let mut out = [0; N];
    let mut more = [0; N];
    let ends = take_parts(line, from, &mut bytes);
    let parts = Parts {
        bytes: &bytes[..],
        ends,
    };
    call.answer(parts, &mut out, &mut more, text, at)
}

// Puts the answer of a row to the fields. Behind the last row there is none.
pub fn answer_fields(row: usize, line: &[u8], from: usize, text: &mut [u8], at: usize) -> usize
    requires right_fields { RightFields line.now from }
    requires line_len_bound { (length line.now ≤ longest) × (at + 100 + length line.now ≤ length text.old) }
    ensures { RowAnswered row line.now from text.old at text.new result }
{
    let Some(call) = CALLS.get(row) else {
        return at;
    };
    call.answer_fields(line, from, text, at)
}
