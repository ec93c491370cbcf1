// The whole listing: Fill's answer, the header, at most 64 lists, and the last line.
ghost use Rattle.std.specs.Prelude.{◌≡◌, ◌+◌, ◌≤◌, length, take};
ghost use Rattle.io.specs.Counts.{IsPrefixLen};
ghost use Rattle.text.specs.Putting.{Put, PutWithin};
ghost use Rattle.spec.specs.Kits.{kits};
ghost use Rattle.report.specs.Listing.{kit_lines, listing_of, page, lists_page};
ghost use Rattle.report.specs.Asking.{Listable, RoomForSheet};

use crate::asking::{first_kit, next_kit};
use crate::lines::{put_end, put_header, put_list, put_more, put_refused};
use records::count;
use sheet::count_open;

// A sheet has no more boxes; one that has is refused.
const MOST_BOXES: usize = 256;

const MOST_LISTS: usize = 64;

// Puts the lists and the last line.
fn put_kits<'a>(
    maker: &'a [u8],
    depot: &'a [u8],
    sheet: &[u8],
    given: &mut [u8],
    kit: &mut [u8],
    out: &mut [u8],
    start: usize,
) -> usize
    requires listable { Listable maker.now depot.now sheet.now kit.old }
    requires given_len { length given.old ≡ length sheet.now }
    requires lists_page_in_bounds { start + lists_page ≤ length out.old }
    ensures { PutWithin lists_page out.old start (kit_lines (kits maker.now depot.now sheet.now)) out.new result }
{
    let mut at = start;
    let mut found = first_kit(maker, depot, sheet, kit);
    for k in 0..MOST_LISTS {
        if !found {
            return put_end(out, at, k);
        }
        at = put_list(out, at, &kit[..]);
        found = next_kit(maker, depot, sheet, given, kit);
    }
    if !found {
        return put_end(out, at, MOST_LISTS);
    }
    put_more(out, at)
}

// Puts everything, with three buffers lent for a sheet or list each.
fn put_listing<'a>(
    maker: &'a [u8],
    depot: &'a [u8],
    sheet: &[u8],
    filled: &mut [u8],
    given: &mut [u8],
    kit: &mut [u8],
    out: &mut [u8],
) -> usize
    requires room_for_sheet { RoomForSheet sheet.now filled.old }
    requires room_for_sheet_2 { RoomForSheet sheet.now given.old }
    requires room_for_sheet_3 { RoomForSheet sheet.now kit.old }
    requires page_in_bounds { page ≤ length out.old }
    ensures { PutWithin page out.old 0 (listing_of maker.now depot.now sheet.now) out.new result }
{
    let boxes = match desk::fill(maker, depot, sheet, filled) {
        Ok(boxes) => boxes,
        Err(why) => return put_refused(out, why.into()),
    };
    let rules = count(maker, depot);
    let left = count_open(&filled[..]);
    let at = put_header(out, sheet.len(), rules, boxes, left);
    put_kits(maker, depot, sheet, given, kit, out, at)
}

// Puts the listing of these tables and this sheet at the start of out, and answers how many bytes it is.
pub fn listing<'a>(maker: &'a [u8], depot: &'a [u8], sheet: &[u8], out: &mut [u8]) -> usize
    requires { page ≤ length out.old }
    ensures counted { IsPrefixLen result out.new }
    ensures written { take result out.new ≡ listing_of maker.now depot.now sheet.now }
    ensures nothing_else { Put out.old 0 (listing_of maker.now depot.now sheet.now) out.new result }
{
    let n = sheet.len().min(MOST_BOXES);
    let mut filled = [0; MOST_BOXES];
    let mut given = [0; MOST_BOXES];
    let mut kit = [0; MOST_BOXES];
    put_listing(
        maker,
        depot,
        sheet,
        &mut filled[..n],
        &mut given[..n],
        &mut kit[..n],
        out,
    )
}
