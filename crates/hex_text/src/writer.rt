// The digit writer.
ghost use Rattle.std.specs.Prelude.{◌≡◌, ◌<◌, length};
ghost use Rattle.hex_text.specs.Digits.{digit_of, digits};

// char::from_digit gives an Option of a char, which would be taken apart again: no plainer.
fn digit_of(n: u64) -> u8
    requires { n < 16 }
    ensures { result ≡ digit_of n }
{
    if n < 10 { 48 + n as u8 } else { 87 + n as u8 }
}

// A number written into the part for one field, in as many digits as it has bytes. The loop goes from the last digit to the first.
pub fn write_digits(part: &mut [u8], n: u64)
    ensures { part.new ≡ digits (length part.old) n }
{
    let mut rest = n;
    // by index: of a slice after iter_mut().rev() no proof knows its elements
    for i in (0..part.len()).rev() {
        part[i] = digit_of(rest % 16);
        rest /= 16;
    }
}
