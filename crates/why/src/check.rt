// The check of a why-list, line by line: the states are the sheet's and those of the lines above.
ghost use Rattle.std.specs.Prelude.{◌≡◌, not, ◌%◌, length};
ghost use Rattle.spec.proofs.Accepted.{AcceptedSheet};
ghost use Rattle.lemmas.specs.Lowest.{lowest_if_any};
ghost use Rattle.engine.specs.Moves.{Cells};
ghost use Rattle.whylists.specs.Lines.{line_count, right};
ghost use Rattle.why.specs.Read.{as_line, right_on};

use crate::given::given;
use crate::lines::{Reason, line_at};
use records::states::OPEN;
use sheet::load;
use tables::{Order, Tables};

// Whether a line is right on these states.
#[tactic(auto, using(crate::proofs::Codes::line_tests), unfolding(crate::specs::Read::right_on))]
fn is_right(t: Tables, states: &[u8; 256], a: Reason) -> bool
    requires { Cells states.now }
    ensures { result ≡ right_on t.entry.maker.now t.entry.depot.now t.entry.n states.now (as_line a) }
{
    a.state <= 1
        && a.byte3 == 0
        && a.bytes67 == 0
        && a.number < t.records()
        && a.b < t.n
        && states[a.b] == OPEN
        && given(t.record(a.number), states, a.b) == a.state
}

// The first wrong line.
pub fn first_wrong(order: Order, lines: &[u8]) -> Option<usize>
    requires { length lines.now % 8 ≡ 0 }
    ensures { result ≡ lowest_if_any
        (λ k. not (right order.entry.tables.maker.now order.entry.tables.depot.now order.entry.sheet.now lines.now k))
        (line_count lines.now) }
{
    let mut states = [OPEN; 256];
    load(order.sheet, &mut states);
    for k in 0..lines.len() / 8 {
        let a = line_at(lines, k);
        if !is_right(order.tables, &states, a) {
            return Some(k);
        }
        states[a.b] = a.state;
    }
    None
}
