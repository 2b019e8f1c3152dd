// The number that the digits of a short part stand for.
ghost use Rattle.std.specs.Prelude.{◌≡◌};
ghost use Rattle.hex_text.specs.Digits.{number};

use crate::words::{number_of_word, word};

pub fn number_of_four(s: &[u8]) -> u16
    ensures { result ≡ number 4 s.now }
{
    number_of_word(word(s))
}

// The first two of four digits.
pub fn number_of_two(s: &[u8]) -> u8
    ensures { result ≡ number 2 s.now }
{
    (number_of_four(s) / 256) as u8
}
