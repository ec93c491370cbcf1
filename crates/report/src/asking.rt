// One list after the other: First, then Next after each list handed out.
ghost use Rattle.std.specs.Prelude.{◌≡◌, length};
ghost use Rattle.spec.specs.Kits.{kits, kits_after};
ghost use Rattle.kits.specs.Kit.{IsFull};
ghost use Rattle.report.specs.Asking.{Listable, AtHead};

use lists::is_list;
use sheet::store;

// Writes the first kit, and answers whether there is one.
pub fn first_kit<'a>(maker: &'a [u8], depot: &'a [u8], sheet: &[u8], kit: &mut [u8]) -> bool
    requires { Listable maker.now depot.now sheet.now kit.old }
    ensures { AtHead (kits maker.now depot.now sheet.now) result kit.new }
{
    is_list(desk::first(maker, depot, sheet, kit))
}

// Writes the kit after this one, and answers whether there is one.
pub fn next_kit<'a>(
    maker: &'a [u8],
    depot: &'a [u8],
    sheet: &[u8],
    given: &mut [u8],
    kit: &mut [u8],
) -> bool
    requires listable { Listable maker.now depot.now sheet.now kit.old }
    requires given_len { length given.old ≡ length sheet.now }
    requires full { IsFull (length sheet.now) kit.old }
    ensures { AtHead (kits_after maker.now depot.now sheet.now kit.old) result kit.new }
{
    store(&kit[..], given);
    is_list(desk::next(maker, depot, sheet, &given[..], kit))
}
