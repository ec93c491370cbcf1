// The checks of form: refusals 1 to 6, in the order of the paper's table. The first that applies is given.
#![tactic(auto, unfolding(spec::specs::Refusals::boxes_check, spec::specs::Refusals::maker_check, spec::specs::Refusals::depot_check, spec::specs::Refusals::count_check, spec::specs::Refusals::record_check, spec::specs::Refusals::sheet_check, spec::specs::Refusals::given_check, spec::specs::Refusals::out_check, spec::specs::Refusals::list_check))]

ghost use Rattle.std.specs.Prelude.{◌≡◌, false, ℕ, ◌<◌, length, get_or, ltb, ◌∷◌, []};
ghost use Rattle.lemmas.specs.Lowest.{lowest_if_any};
ghost use Rattle.spec.specs.Records.{record_at, record_count, bad};
ghost use Rattle.spec.specs.Refusals.{passed, judge, table_checks, sheet_check, given_check, out_check, list_check, sheet_checks, order_checks, next_checks};
ghost use Rattle.spec.specs.Fits.{test_checks};
ghost use Rattle.spec.proofs.Accepted.{WholeRecords};
ghost use Rattle.accept.specs.Form.{form_says};

use records::{count, is_bad, record_at};
use refusals::Refusal;

const MOST_BOXES: usize = 256;

const MOST_RECORDS: usize = 1024;

// The lowest bad record.
fn first_bad(maker: &[u8], depot: &[u8], n: usize) -> Option<usize>
    requires { WholeRecords maker.now depot.now }
    ensures { result ≡ lowest_if_any (λ i. bad n (record_at maker.now depot.now i)) (record_count maker.now depot.now) }
{
    for i in 0..count(maker, depot) {
        if is_bad(n, record_at(maker, depot, i)) {
            return Some(i);
        }
    }
    None
}

// Whether a byte is above `top`. It looks at every byte, so that many are looked at at a time: on a good sheet that is all there is
// to do.
fn is_any_above(s: &[u8], top: u8) -> bool
    ensures { result ≡ false → (b : ℕ) → b < length s.now → ltb top (get_or s.now b 0) ≡ false }
{
    let mut found = false;
    for b in s {
        if top < *b {
            found = true;
        }
    }
    found
}

// The lowest byte above `top`.
fn first_above(s: &[u8], top: u8) -> Option<usize>
    ensures { result ≡ lowest_if_any (λ b. ltb top (get_or s.now b 0)) (length s.now) }
{
    if !is_any_above(s, top) {
        return None;
    }
    s.iter().position(|b| top < *b)
}

// The tables, with n boxes: 1, 2, 3.
pub fn check_tables(maker: &[u8], depot: &[u8], n: usize) -> Result<(), Refusal>
    ensures { form_says result ≡ judge (table_checks n maker.now depot.now) passed }
{
    if MOST_BOXES < n {
        return Err(Refusal::BoxCount);
    }
    if maker.len() % 8 != 0 {
        return Err(Refusal::MakerLength);
    }
    if depot.len() % 8 != 0 {
        return Err(Refusal::DepotLength);
    }
    if MOST_RECORDS < count(maker, depot) {
        return Err(Refusal::RecordCount);
    }
    match first_bad(maker, depot, n) {
        Some(i) => Err(Refusal::BadRecord(i)),
        None => Ok(()),
    }
}

// The sheet's bytes: 4.
fn check_sheet(sheet: &[u8]) -> Result<(), Refusal>
    ensures { form_says result ≡ judge (sheet_check sheet.now ∷ []) passed }
{
    match first_above(sheet, 2) {
        Some(b) => Err(Refusal::SheetByte(b)),
        None => Ok(()),
    }
}

// A full list's bytes: 6.
fn check_list(list: &[u8]) -> Result<(), Refusal>
    ensures { form_says result ≡ judge (list_check list.now ∷ []) passed }
{
    match first_above(list, 1) {
        Some(b) => Err(Refusal::ListByte(b)),
        None => Ok(()),
    }
}

// Test and Show: 1, 2, 3, 6.
pub fn check_test(maker: &[u8], depot: &[u8], list: &[u8]) -> Result<(), Refusal>
    ensures { form_says result ≡ judge (test_checks maker.now depot.now list.now) passed }
{
    check_tables(maker, depot, list.len())?;
    check_list(list)
}

// The given list's length: 5 at place 0.
fn check_given(given: &[u8], n: usize) -> Result<(), Refusal>
    ensures { form_says result ≡ judge (given_check n given.now ∷ []) passed }
{
    if given.len() != n {
        return Err(Refusal::GivenLength);
    }
    Ok(())
}

// The out buffer's length: 5 at place 1.
pub fn check_out(out: &[u8], n: usize) -> Result<(), Refusal>
    ensures { form_says result ≡ judge (out_check n out.now ∷ []) passed }
{
    if out.len() != n {
        return Err(Refusal::OutLength);
    }
    Ok(())
}

// Tables and sheet, with which every call of an order begins: 1, 2, 3, 4.
pub fn check_sheet_call(maker: &[u8], depot: &[u8], sheet: &[u8]) -> Result<(), Refusal>
    ensures { form_says result ≡ judge (sheet_checks maker.now depot.now sheet.now) passed }
{
    check_tables(maker, depot, sheet.len())?;
    check_sheet(sheet)
}

// Fill and First: 1, 2, 3, 4, 5 at place 1.
pub fn check_order(maker: &[u8], depot: &[u8], sheet: &[u8], out: &[u8]) -> Result<(), Refusal>
    ensures { form_says result ≡ judge (order_checks maker.now depot.now sheet.now out.now) passed }
{
    check_sheet_call(maker, depot, sheet)?;
    check_out(out, sheet.len())
}

// Next's out buffer and the bytes of its given list: 5 at place 1, 6.
fn check_out_and_list(given: &[u8], n: usize, out: &[u8]) -> Result<(), Refusal>
    ensures { form_says result ≡ judge (out_check n out.now ∷ list_check given.now ∷ []) passed }
{
    check_out(out, n)?;
    check_list(given)
}

// What Next is given besides tables and sheet: 5 at places 0 and 1, 6.
fn check_lists(given: &[u8], n: usize, out: &[u8]) -> Result<(), Refusal>
    ensures { form_says result ≡ judge (given_check n given.now ∷ out_check n out.now ∷ list_check given.now ∷ []) passed }
{
    check_given(given, n)?;
    check_out_and_list(given, n, out)
}

// Next: 1, 2, 3, 4, 5 at places 0 and 1, 6.
pub fn check_next(
    maker: &[u8],
    depot: &[u8],
    sheet: &[u8],
    given: &[u8],
    out: &[u8],
) -> Result<(), Refusal>
    ensures { form_says result ≡ judge (next_checks maker.now depot.now sheet.now given.now out.now) passed }
{
    check_sheet_call(maker, depot, sheet)?;
    check_lists(given, sheet.len(), out)
}
