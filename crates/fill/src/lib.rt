// The public operation Fill: the checks, the engine, and what is written.
#![tactic(auto, using(crate::proofs::Says::filled_size))]

ghost use Rattle.std.specs.Prelude.{◌≡◌, ◌≤◌, length};
ghost use Rattle.lemmas.specs.Lowest.{if_below};
ghost use Rattle.spec.specs.Records.{record_count};
ghost use Rattle.spec.specs.Fits.{first_broken};
ghost use Rattle.spec.proofs.Accepted.{AcceptedSheet};
ghost use Rattle.refusals.specs.Telling.{done_with, numbers_of, in_order};
ghost use Rattle.fill.specs.Answer.{filled_says, FillsTo, FillDoes, FillDoesInForm};

use accept::check_order;
use broken::first_broken;
use engine::run;
use records::states::OPEN;
use refusals::{Numbers, Refusal, done};
use sheet::{count_filled, count_open, load, store};
use tables::{Order, Tables};

pub fn numbers(answer: Result<usize, Refusal>) -> Numbers
    ensures { in_order result ≡ numbers_of done_with (filled_says answer) }
{
    match answer {
        Ok(count) => done(count),
        Err(why) => why.into(),
    }
}

// The first record that a filled sheet breaks, where it breaks one.
fn broken_of(t: Tables, filled: &[u8]) -> Option<usize>
    ensures { result ≡ if_below (first_broken t.entry.maker.now t.entry.depot.now filled.now)
        (record_count t.entry.maker.now t.entry.depot.now) }
{
    first_broken(t.maker, t.depot, filled)
}

// A filled sheet with no open box is tested once more before it is written.
fn hand_out(order: Order, filled: &[u8], out: &mut [u8]) -> Result<usize, Refusal>
    requires fills_to { FillsTo order.tables.maker.now order.tables.depot.now order.sheet.now filled.now }
    requires out_len { length out.old ≡ order.tables.n }
    ensures { FillDoesInForm order.entry.tables.maker.now order.entry.tables.depot.now order.entry.sheet.now out.old result out.new }
{
    if count_open(filled) == 0 {
        if let Some(i) = broken_of(order.tables, filled) {
            return Err(Refusal::Broken(i));
        }
    }
    store(filled, out);
    Ok(count_filled(order.sheet, filled))
}

// What is left to do once the checks have passed.
fn fill_accepted(order: Order, out: &mut [u8]) -> Result<usize, Refusal>
    requires { length out.old ≡ order.tables.n }
    ensures { FillDoesInForm order.entry.tables.maker.now order.entry.tables.depot.now order.entry.sheet.now out.old result out.new }
{
    let mut states = [OPEN; 256];
    load(order.sheet, &mut states);
    let Ok(()) = run(order.tables, &mut states) else {
        return Err(Refusal::Clash);
    };
    hand_out(order, &states[..order.tables.n], out)
}

#[tactic(auto, using(crate::proofs::Says::fill_order), unfolding(spec::specs::Fill::fill_says, spec::specs::Fill::fill_writes))]
pub fn fill<'a>(
    maker: &'a [u8],
    depot: &'a [u8],
    sheet: &[u8],
    out: &mut [u8],
) -> Result<usize, Refusal>
    ensures { FillDoes maker.now depot.now sheet.now out.old result out.new }
{
    check_order(maker, depot, sheet, &out[..])?;
    let n = sheet.len();
    let tables = Tables { maker, depot, n };
    fill_accepted(Order { tables, sheet }, out)
}
