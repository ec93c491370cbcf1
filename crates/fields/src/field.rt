// The fields of a line, parted by one space, and the bytes that a field gives.
ghost use Rattle.std.specs.Prelude.{◌≡◌, true, ◌+◌, ◌*◌, ◌≤◌, length, drop};
ghost use Rattle.lemmas.specs.Lists.{all};
ghost use Rattle.text.specs.Putting.{Put};
ghost use Rattle.fields.specs.Fields.{fields_of, digit_in, is_field, bytes_in};

pub const SPACE: u8 = b' ';

// The value of a lowercase hexadecimal digit.
#[tactic(auto, using(crate::proofs::Digits::digit_ranged))]
fn digit_of(c: u8) -> Option<u8>
    ensures { result ≡ digit_in c }
{
    match c {
        b'0'..=b'9' => Some(c - b'0'),
        b'a'..=b'f' => Some(c - b'a' + 10),
        _ => None,
    }
}

// A dot, or digits in pairs.
fn is_field(field: &[u8]) -> bool
    ensures { result ≡ is_field field.now }
{
    match field {
        [] => false,
        [c] => *c == b'.',
        _ => field.len() % 2 == 0 && field.iter().all(|c| digit_of(*c).is_some()),
    }
}

// Whether all fields are right, from the one that starts at `from` on.
pub fn are_fields(line: &[u8], from: usize) -> bool
    requires { from ≤ length line.now }
    ensures { result ≡ all is_field (fields_of (drop from line.now)) }
{
    line[from..].split(|c| *c == SPACE).all(is_field)
}

// Puts the bytes of a field at `at`: two digits a byte, and none for a dot. In a right field what stands in pairs is digits.
pub fn decode(field: &[u8], bytes: &mut [u8], at: usize) -> usize
    requires field_value { is_field field.now ≡ true }
    requires field_bound { 2 * at + length field.now ≤ 2 * length bytes.old }
    ensures { Put bytes.old at (bytes_in field.now) bytes.new result }
{
    let mut next = at;
    for pair in field.chunks_exact(2) {
        bytes[next] = 16 * digit_of(pair[0]).unwrap() + digit_of(pair[1]).unwrap();
        next += 1;
    }
    next
}
