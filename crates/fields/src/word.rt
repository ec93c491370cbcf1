// A word looked for among others.
ghost use Rattle.std.specs.Prelude.{◌≡◌};
ghost use Rattle.fields.specs.Fields.{fields_of};
ghost use Rattle.fields.specs.Words.{found_among};

use crate::field::SPACE;

// The number of the first word that is this one. They are parted by one space.
pub fn place_among(word: &[u8], words: &[u8]) -> Option<usize>
    ensures { result ≡ found_among word.now (fields_of words.now) }
{
    words.split(|c| *c == SPACE).position(|w| word == w)
}
