// The sheet as 256 states, those past the sheet's end open: lent, or by value. A sheet with one more box settled is a new sheet.
#![tactic(auto)]

ghost use Rattle.std.specs.Prelude.{◌≡◌, ◌≤◌, ◌<◌, length, replicate, set};
ghost use Rattle.spec.specs.Fill.{boxes_filled, open_count};
ghost use Rattle.theory.specs.Steps.{Loaded};

use records::states::OPEN;

#[derive(Clone, Copy, Debug, PartialEq, Eq)]
pub struct Sheet {
    pub states: [u8; 256],
}

impl Sheet {
    // The sheet with box b settled; the old one is still there for the other choice.
    pub fn settled(mut self, b: usize, state: u8) -> Sheet
        requires { b < 256 }
        ensures { result.states ≡ set self.states b state }
    {
        self.states[b] = state;
        self
    }
}

// The sheet's states at the head of an array that is all open. The array is lent, so that a fill copies no sheet.
pub fn load(sheet: &[u8], states: &mut [u8; 256])
    requires sheet_len_bound { length sheet.now ≤ 256 }
    requires states_value { states.old ≡ replicate 256 2 }
    ensures { Loaded sheet.now states.new }
{
    states[..sheet.len()].copy_from_slice(sheet);
}

pub fn store(filled: &[u8], out: &mut [u8])
    requires { length out.old ≡ length filled.now }
    ensures { out.new ≡ filled.now }
{
    out.copy_from_slice(filled);
}

// The boxes that were open on the one sheet and are not on the other. Counted in sixteen bits, and without a test in the loop, so that
// many boxes are counted at a time.
pub fn count_filled(sheet: &[u8], filled: &[u8]) -> usize
    requires sheet_len_bound { length sheet.now ≤ 256 }
    requires sheet_len { length sheet.now ≡ length filled.now }
    ensures { result ≡ boxes_filled sheet.now filled.now }
{
    let mut n: u16 = 0;
    for (old, new) in sheet.iter().zip(filled) {
        n += u16::from((*old == OPEN) & (*new != OPEN));
    }
    usize::from(n)
}

// Counted in the same way: `filter` and `count` miss the bar of speed.
pub fn count_open(sheet: &[u8]) -> usize
    requires { length sheet.now ≤ 256 }
    ensures { result ≡ open_count sheet.now }
{
    let mut n: u16 = 0;
    for state in sheet {
        n += u16::from(*state == OPEN);
    }
    usize::from(n)
}
