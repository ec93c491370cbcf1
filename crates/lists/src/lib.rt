// The public operations First and Next.
#![tactic(auto)]

ghost use Rattle.std.specs.Prelude.{◌≡◌, length, IfSome};
ghost use Rattle.spec.specs.Refusals.{is_answered};
ghost use Rattle.refusals.specs.Telling.{numbers_of, in_order};
ghost use Rattle.lists.specs.Answer.{listed_says, handed_numbers, FirstDoes, NextDoes, Chosen};

use accept::{check_next, check_order};
use records::states::OPEN;
use refusals::{Numbers, Refusal, done};
use search::search;
use sheet::{Sheet, load, store};
use tables::{Order, Tables};

pub fn numbers(answer: Result<(), Refusal>) -> Numbers
    ensures { in_order result ≡ numbers_of handed_numbers (listed_says answer) }
{
    match answer {
        Ok(()) => done(0),
        Err(why) => why.into(),
    }
}

// Whether a list is handed out.
pub fn is_list(answer: Result<(), Refusal>) -> bool
    ensures { result ≡ is_answered (listed_says answer) }
{
    answer.is_ok()
}

// What is left to do once the checks have passed: writes the first kit of the sheet, and where a list is given, the first strictly
// after it.
fn choose_accepted(order: Order, given: Option<&[u8]>, out: &mut [u8]) -> Result<(), Refusal>
    requires out_len { length out.old ≡ order.tables.n }
    requires given_len { IfSome given (λ list. length list.now ≡ order.tables.n) }
    ensures { Chosen order.entry.tables.n order.entry.tables.maker.now order.entry.tables.depot.now order.entry.sheet.now
        given.entry out.old result out.new }
{
    let mut states = [OPEN; 256];
    load(order.sheet, &mut states);
    let Some(kit) = search(order.tables, Sheet { states }, given) else {
        return Err(Refusal::NoList);
    };
    store(&kit.states[..order.tables.n], out);
    Ok(())
}

#[tactic(auto, using(crate::proofs::Calls::first_order, crate::proofs::Calls::first_does), unfolding(spec::specs::Kits::first_says, spec::specs::Kits::first_writes))]
pub fn first<'a>(
    maker: &'a [u8],
    depot: &'a [u8],
    sheet: &[u8],
    out: &mut [u8],
) -> Result<(), Refusal>
    ensures { FirstDoes maker.now depot.now sheet.now out.old result out.new }
{
    check_order(maker, depot, sheet, &out[..])?;
    let n = sheet.len();
    let tables = Tables { maker, depot, n };
    choose_accepted(Order { tables, sheet }, None, out)
}

#[tactic(auto, using(crate::proofs::Calls::next_order, crate::proofs::Calls::next_does), unfolding(spec::specs::Kits::next_says, spec::specs::Kits::next_writes))]
pub fn next<'a>(
    maker: &'a [u8],
    depot: &'a [u8],
    sheet: &[u8],
    given: &[u8],
    out: &mut [u8],
) -> Result<(), Refusal>
    ensures { NextDoes maker.now depot.now sheet.now given.now out.old result out.new }
{
    check_next(maker, depot, sheet, given, &out[..])?;
    let n = sheet.len();
    let tables = Tables { maker, depot, n };
    choose_accepted(Order { tables, sheet }, Some(given), out)
}
