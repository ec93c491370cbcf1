// The parts of a call: the bytes of its fields, one after the other in one lent buffer.
ghost use Rattle.std.specs.Prelude.{◌≡◌, ◌+◌, ◌*◌, ◌≤◌, ◌<◌, length, get_or};
ghost use Rattle.fields.specs.Ends.{part_in, EndsInOrder, RightFields, PartsTaken, PartCopied, number_in};

use crate::field::{SPACE, decode};
use text::put_bytes;

// The bytes, and where each part ends: part k lies from end k to end k + 1.
#[derive(Clone, Copy)]
pub struct Parts<'a> {
    pub bytes: &'a [u8],
    pub ends: [usize; 9],
    ghost in_order: { EndsInOrder bytes.now ends },
}

impl<'a> Parts<'a> {
    pub fn part(&self, k: usize) -> &'a [u8]
        requires { k < 8 }
        ensures { result.now ≡ part_in self.now.bytes.now self.now.ends k }
    {
        &self.bytes[self.ends[k]..self.ends[k + 1]]
    }

    // Copies a part to the front of a buffer, which can then be lent for writing, and answers how many bytes it has.
    pub fn copy_part(&self, k: usize, room: &mut [u8]) -> usize
        requires { (k < 8) × (get_or self.now.ends 8 0 ≤ length room.old) }
        ensures { PartCopied self.now.bytes.now self.now.ends k room.new result }
    {
        put_bytes(room, 0, self.part(k))
    }
}

// Decodes the fields from `from` on, eight at most, and answers where the parts end. The parts of those that are not there are empty.
pub fn take_parts(line: &[u8], from: usize, bytes: &mut [u8]) -> [usize; 9]
    requires right_fields { RightFields line.now from }
    requires line_len_bound { length line.now ≤ 2 * length bytes.old }
    ensures { PartsTaken line.now from bytes.new result }
{
    let mut fields = line[from..].split(|c| *c == SPACE);
    let mut ends = [0; 9];
    let mut at = 0;
    for k in 0..8 {
        if let Some(field) = fields.next() {
            at = decode(field, bytes, at);
        }
        ends[k + 1] = at;
    }
    ends
}

// The number that a part of four bytes is.
pub fn number(part: &[u8]) -> usize
    requires { length part.now ≡ 4 }
    ensures { result ≡ number_in part.now }
{
    u32::from_le_bytes([part[0], part[1], part[2], part[3]]) as usize
}
