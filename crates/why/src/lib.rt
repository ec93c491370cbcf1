// Why-lists: our list of reasons for what Fill settles, and the check of anyone's.
#![tactic(auto)]

mod check;
mod given;
mod lines;
mod make;
mod next;

ghost use Rattle.std.specs.Prelude.{◌≡◌, ◌*◌, length};
ghost use Rattle.spec.proofs.Accepted.{AcceptedSheet};
ghost use Rattle.spec.specs.Refusals.{passed, judge};
ghost use Rattle.accept.specs.Form.{form_says};
ghost use Rattle.whylists.specs.Says.{why_checks, why_check_judges, why_check_says};
ghost use Rattle.why.specs.Answer.{vetted_says, WhyDoes, WhyDoesInForm};

use accept::{check_out, check_sheet_call};
use check::first_wrong;
use engine::run;
use make::make_lines;
use records::states::OPEN;
use refusals::Refusal;
use sheet::load;
use tables::{Order, Tables};

// What the checker has left to say once tables and sheet have passed.
#[tactic(auto, unfolding(whylists::specs::Says::why_check_judges, whylists::specs::Says::length_check, whylists::specs::Says::lines_check))]
fn vet_accepted(order: Order, lines: &[u8]) -> Result<(), Refusal>
    ensures { vetted_says result
        ≡ why_check_judges order.entry.tables.maker.now order.entry.tables.depot.now order.entry.sheet.now lines.now }
{
    if lines.len() % 8 != 0 {
        return Err(Refusal::LinesLength);
    }
    match first_wrong(order, lines) {
        Some(k) => Err(Refusal::WrongLine(k)),
        None => Ok(()),
    }
}

#[tactic(auto, using(crate::proofs::Judging::sheet_passed))]
pub fn why_check<'a>(
    maker: &'a [u8],
    depot: &'a [u8],
    sheet: &[u8],
    lines: &[u8],
) -> Result<(), Refusal>
    ensures { vetted_says result ≡ why_check_says maker.now depot.now sheet.now lines.now }
{
    check_sheet_call(maker, depot, sheet)?;
    let n = sheet.len();
    let tables = Tables { maker, depot, n };
    vet_accepted(Order { tables, sheet }, lines)
}

// What the maker has left to do once the checks have passed: nothing is written before a clash is ruled out.
fn why_accepted(order: Order, out: &mut [u8]) -> Result<usize, Refusal>
    requires { length out.old ≡ 8 * order.tables.n }
    ensures { WhyDoesInForm order.entry.tables.maker.now order.entry.tables.depot.now order.entry.sheet.now out.old result out.new }
{
    let mut states = [OPEN; 256];
    load(order.sheet, &mut states);
    let Ok(()) = run(order.tables, &mut states) else {
        return Err(Refusal::Clash);
    };
    Ok(make_lines(order, out))
}

// The maker's checks of form: 1, 2, 3, 4, 5 at place 1.
#[tactic(auto, using(crate::proofs::Judging::sheet_passed))]
fn check_why(maker: &[u8], depot: &[u8], sheet: &[u8], out: &[u8]) -> Result<(), Refusal>
    ensures { form_says result ≡ judge (why_checks maker.now depot.now sheet.now out.now) passed }
{
    check_sheet_call(maker, depot, sheet)?;
    check_out(out, 8 * sheet.len())
}

#[tactic(auto, using(crate::proofs::Judging::why_sheet, crate::proofs::Judging::why_out))]
pub fn why<'a>(
    maker: &'a [u8],
    depot: &'a [u8],
    sheet: &[u8],
    out: &mut [u8],
) -> Result<usize, Refusal>
    ensures { WhyDoes maker.now depot.now sheet.now out.old result out.new }
{
    check_why(maker, depot, sheet, &out[..])?;
    let n = sheet.len();
    let tables = Tables { maker, depot, n };
    why_accepted(Order { tables, sheet }, out)
}
