// Test and Show: whether a full list fits every rule, the first record that it breaks, and that record's bytes.
#![tactic(auto)]

ghost use Rattle.std.specs.Prelude.{◌≡◌};
ghost use Rattle.spec.specs.Refusals.{answered};
ghost use Rattle.spec.specs.Fits.{test_judges, test_says, part_for, shows_part};
ghost use Rattle.refusals.specs.Telling.{numbers_of, in_order};
ghost use Rattle.fits.specs.Answer.{verdict_of, tested_says, verdict_numbers, Shows};

use accept::check_test;
use broken::first_broken;
use records::{Where, place_of};
use refusals::{BROKEN, Numbers, Refusal, done, three};
use tables::Tables;

#[derive(Clone, Copy, Debug, PartialEq, Eq)]
pub enum Verdict {
    Fits,
    Broken(usize),
}

pub fn numbers(answer: Result<Verdict, Refusal>) -> Numbers
    ensures { in_order result ≡ numbers_of verdict_numbers (tested_says answer) }
{
    match answer {
        Ok(Verdict::Fits) => done(0),
        Ok(Verdict::Broken(number)) => three(BROKEN, number, 0),
        Err(why) => why.into(),
    }
}

// What Test has left to say once the checks have passed.
#[tactic(auto, unfolding(spec::specs::Fits::test_judges))]
fn test_accepted(t: Tables, list: &[u8]) -> Verdict
    ensures { answered (verdict_of result) ≡ test_judges t.entry.maker.now t.entry.depot.now list.now }
{
    match first_broken(t.maker, t.depot, list) {
        Some(i) => Verdict::Broken(i),
        None => Verdict::Fits,
    }
}

#[tactic(auto, using(spec::proofs::Accepted::test_accepted), unfolding(spec::specs::Fits::test_says))]
pub fn test<'a>(maker: &'a [u8], depot: &'a [u8], list: &[u8]) -> Result<Verdict, Refusal>
    ensures { tested_says result ≡ test_says maker.now depot.now list.now }
{
    check_test(maker, depot, list)?;
    let n = list.len();
    Ok(test_accepted(Tables { maker, depot, n }, list))
}

// What Show has left to show once the checks have passed. The empty part at the start of the maker's table stands for every answer of
// Test that names no record.
#[tactic(auto, unfolding(spec::specs::Fits::test_judges, spec::specs::Fits::bytes_of))]
fn show_accepted<'a>(t: Tables<'a>, list: &[u8]) -> &'a [u8]
    ensures { Shows t.entry.maker t.entry.depot
        (part_for t.entry.maker.now (test_judges t.entry.maker.now t.entry.depot.now list.now)) result }
{
    let Some(i) = first_broken(t.maker, t.depot, list) else {
        return &t.maker[0..0];
    };
    match place_of(t.maker, i) {
        Where::Maker(start) => &t.maker[start..start + 8],
        Where::Depot(start) => &t.depot[start..start + 8],
    }
}

#[tactic(auto, using(spec::proofs::Accepted::test_accepted), unfolding(spec::specs::Fits::shows_part, spec::specs::Fits::test_says, spec::specs::Fits::bytes_of))]
pub fn show<'a>(maker: &'a [u8], depot: &'a [u8], list: &[u8]) -> &'a [u8]
    ensures { Shows maker.entry depot.entry (shows_part maker.now depot.now list.now) result }
{
    let Ok(()) = check_test(maker, depot, list) else {
        return &maker[0..0];
    };
    let n = list.len();
    show_accepted(Tables { maker, depot, n }, list)
}
