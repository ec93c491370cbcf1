// What is left of a part of an input, moved to the front of the buffer that holds it.
ghost use Rattle.std.specs.Prelude.{◌≡◌, ◌-◌, ◌≤◌, length, take, drop};

// Moves the bytes between two places to the front, and answers how many they are.
pub fn keep(input: &mut [u8], from: usize, end: usize) -> usize
    requires from_le_end { from ≤ end }
    requires end_in_bounds { end ≤ length input.old }
    ensures value { result ≡ end - from }
    ensures input_after { take (end - from) input.new ≡ take (end - from) (drop from input.old) }
{
    input.copy_within(from..end, 0);
    end - from
}
