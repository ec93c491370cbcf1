// The operations for C, which `port_c` exports. A slice is passed as a pointer and a length, and the answer is written into three
// numbers that the caller lends. The out buffer and the answer must not overlap anything else that is lent.
//
//     Test   0 0 0 it fits              2 RECORD 0 that record is broken    1 NUMBER PLACE refused
//     Show   TABLE START LENGTH, with 0 for the maker's table and 1 for the depot's; 0 0 0 where Test names no record
//     Fill   0 COUNT 0 boxes filled     1 NUMBER PLACE refused
//     First  0 0 0 a list is in out     1 NUMBER PLACE refused
//     Next   as First
#![tactic(auto)]

ghost use Rattle.std.specs.Prelude.{◌≡◌};
ghost use Rattle.spec.specs.Refusals.{Does};
ghost use Rattle.spec.specs.Fits.{test_says, shows_part};
ghost use Rattle.spec.specs.Fill.{fill_says, fill_writes};
ghost use Rattle.spec.specs.Kits.{first_says, first_writes, next_says, next_writes};
ghost use Rattle.refusals.specs.Telling.{numbers_of, done_with};
ghost use Rattle.fits.specs.Answer.{verdict_numbers};
ghost use Rattle.lists.specs.Answer.{handed_numbers};
ghost use Rattle.port.specs.Face.{three_of_part};

use desk::{Verdict, fill, first, next, test};
use records::{Where, place_of};

pub fn angatupyi_test<'a>(maker: &'a [u8], depot: &'a [u8], list: &[u8], answer: &mut [u64; 3])
    ensures { answer.new ≡ numbers_of verdict_numbers (test_says maker.now depot.now list.now) }
{
    *answer = fits::numbers(test(maker, depot, list)).into();
}

// C has no slice to return, so the part is told by its table, start and length. An arm for each answer of Test: of a `_` the proof
// cannot name what the answer was.
pub fn angatupyi_show<'a>(maker: &'a [u8], depot: &'a [u8], list: &[u8], answer: &mut [u64; 3])
    ensures { answer.new ≡ three_of_part (shows_part maker.now depot.now list.now) }
{
    *answer = match test(maker, depot, list) {
        Ok(Verdict::Broken(number)) => match place_of(maker, number) {
            Where::Maker(start) => [0, start as u64, 8],
            Where::Depot(start) => [1, start as u64, 8],
        },
        Ok(Verdict::Fits) => [0, 0, 0],
        Err(_) => [0, 0, 0],
    };
}

pub fn angatupyi_fill<'a>(
    maker: &'a [u8],
    depot: &'a [u8],
    sheet: &[u8],
    out: &mut [u8],
    answer: &mut [u64; 3],
)
    ensures { Does (numbers_of done_with (fill_says maker.now depot.now sheet.now out.old)) (fill_writes maker.now depot.now sheet.now out.old) answer.new out.new }
{
    *answer = fill::numbers(fill(maker, depot, sheet, out)).into();
}

pub fn angatupyi_first<'a>(
    maker: &'a [u8],
    depot: &'a [u8],
    sheet: &[u8],
    out: &mut [u8],
    answer: &mut [u64; 3],
)
    ensures { Does (numbers_of handed_numbers (first_says maker.now depot.now sheet.now out.old)) (first_writes maker.now depot.now sheet.now out.old) answer.new out.new }
{
    *answer = lists::numbers(first(maker, depot, sheet, out)).into();
}

pub fn angatupyi_next<'a>(
    maker: &'a [u8],
    depot: &'a [u8],
    sheet: &[u8],
    given: &[u8],
    out: &mut [u8],
    answer: &mut [u64; 3],
)
    ensures { Does (numbers_of handed_numbers (next_says maker.now depot.now sheet.now given.now out.old)) (next_writes maker.now depot.now sheet.now given.now out.old) answer.new out.new }
{
    *answer = lists::numbers(next(maker, depot, sheet, given, out)).into();
}
