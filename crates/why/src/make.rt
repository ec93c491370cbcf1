// Our list, line by line: the states begin as the sheet's, and each line settles its box.
ghost use Rattle.std.specs.Prelude.{◌≡◌, ◌*◌, ◌<◌, length};
ghost use Rattle.spec.proofs.Accepted.{AcceptedSheet};
ghost use Rattle.whylists.specs.Lines.{Line};
ghost use Rattle.whylists.specs.Ours.{line_bytes};
ghost use Rattle.why.specs.Made.{Made};

use crate::given::given;
use crate::next::next_line;
use records::states::OPEN;
use sheet::load;
use tables::Order;
use text::put_bytes;

// The eight bytes of a line.
fn line_bytes(b: usize, state: u8, number: usize) -> [u8; 8]
    requires b_bound { b < 65536 }
    requires number_bound { number < 65536 }
    ensures { result ≡ line_bytes (record { box = b; state = state; byte3 = 0; number = number; bytes67 = 0 }) }
{
    let [b_low, b_high] = (b as u16).to_le_bytes();
    let [low, high] = (number as u16).to_le_bytes();
    [b_low, b_high, state, 0, low, high, 0, 0]
}

// Writes our list at the head of the buffer, and answers how many lines it has.
pub fn make_lines(order: Order, out: &mut [u8]) -> usize
    requires { length out.old ≡ 8 * order.tables.n }
    ensures { Made order.entry.tables.maker.now order.entry.tables.depot.now order.entry.sheet.now out.old out.new result }
{
    let t = order.tables;
    let mut states = [OPEN; 256];
    load(order.sheet, &mut states);
    for k in 0..t.n {
        let Some(next) = next_line(t, &states) else {
            return k;
        };
        let state = given(t.record(next.number), &states, next.b);
        let line = line_bytes(next.b, state, next.number);
        put_bytes(out, 8 * k, &line);
        states[next.b] = state;
    }
    t.n
}
