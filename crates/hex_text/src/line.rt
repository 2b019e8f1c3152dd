// Lines: digits and a line end.
ghost use Rattle.std.specs.Prelude.{◌≡◌, nat_le};
ghost use Rattle.hex_text.specs.Digits.{is_digit, is_line};

use crate::LINE_END;

// At most 5 of a digit alone: the lesser of a byte's place from a on and its place from 0 on less 4.
fn digit_offset(b: u8) -> u8
    ensures { nat_le result 5 ≡ is_digit b }
{
    let letter = b.wrapping_sub(97);
    let figure = b.wrapping_sub(48).saturating_sub(4);
    figure.min(letter)
}

// Whether a part is a line. No early exit, and the largest offset in place of a test a byte: the loop is vectorised.
pub fn is_line(s: &[u8]) -> bool
    ensures { result ≡ is_line s.now }
{
    let Some((last, digits)) = s.split_last() else {
        return false;
    };
    let mut largest = 0u8;
    for digit in digits {
        largest = largest.max(digit_offset(*digit));
    }
    (largest <= 5) & (*last == LINE_END)
}
