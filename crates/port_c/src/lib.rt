// The operations exported to C: each hands its call on to `port`, and promises what that promises.
#![tactic(auto)]

ghost use Rattle.std.specs.Prelude.{◌≡◌};
ghost use Rattle.spec.specs.Refusals.{Does};
ghost use Rattle.spec.specs.Fits.{test_says, shows_part};
ghost use Rattle.spec.specs.Fill.{fill_says, fill_writes};
ghost use Rattle.spec.specs.Kits.{first_says, first_writes, next_says, next_writes};
ghost use Rattle.refusals.specs.Telling.{numbers_of, done_with};
ghost use Rattle.fits.specs.Answer.{verdict_numbers};
ghost use Rattle.lists.specs.Answer.{handed_numbers};
ghost use Rattle.port.specs.Face.{three_of_part};

#[unsafe(no_mangle)]
pub extern "C" fn angatupyi_test<'a>(
    maker: &'a [u8],
    depot: &'a [u8],
    list: &[u8],
    answer: &mut [u64; 3],
)
    ensures { answer.new ≡ numbers_of verdict_numbers (test_says maker.now depot.now list.now) }
{
    port::angatupyi_test(maker, depot, list, answer)
}

#[unsafe(no_mangle)]
pub extern "C" fn angatupyi_show<'a>(
    maker: &'a [u8],
    depot: &'a [u8],
    list: &[u8],
    answer: &mut [u64; 3],
)
    ensures { answer.new ≡ three_of_part (shows_part maker.now depot.now list.now) }
{
    port::angatupyi_show(maker, depot, list, answer)
}

#[unsafe(no_mangle)]
pub extern "C" fn angatupyi_fill<'a>(
    maker: &'a [u8],
    depot: &'a [u8],
    sheet: &[u8],
    out: &mut [u8],
    answer: &mut [u64; 3],
)
    ensures { Does (numbers_of done_with (fill_says maker.now depot.now sheet.now out.old)) (fill_writes maker.now depot.now sheet.now out.old) answer.new out.new }
{
    port::angatupyi_fill(maker, depot, sheet, out, answer)
}

#[unsafe(no_mangle)]
pub extern "C" fn angatupyi_first<'a>(
    maker: &'a [u8],
    depot: &'a [u8],
    sheet: &[u8],
    out: &mut [u8],
    answer: &mut [u64; 3],
)
    ensures { Does (numbers_of handed_numbers (first_says maker.now depot.now sheet.now out.old)) (first_writes maker.now depot.now sheet.now out.old) answer.new out.new }
{
    port::angatupyi_first(maker, depot, sheet, out, answer)
}

#[unsafe(no_mangle)]
pub extern "C" fn angatupyi_next<'a>(
    maker: &'a [u8],
    depot: &'a [u8],
    sheet: &[u8],
    given: &[u8],
    out: &mut [u8],
    answer: &mut [u64; 3],
)
    ensures { Does (numbers_of handed_numbers (next_says maker.now depot.now sheet.now given.now out.old)) (next_writes maker.now depot.now sheet.now given.now out.old) answer.new out.new }
{
    port::angatupyi_next(maker, depot, sheet, given, out, answer)
}
