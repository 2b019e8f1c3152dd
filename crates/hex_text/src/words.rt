// Four bytes as the lanes of one number, and the number that four digits in such a word stand for.
ghost use Rattle.std.specs.Prelude.{◌≡◌, ◌<◌, ◌≤◌, slice_index};
ghost use Rattle.hex_text.specs.Words.{word_at, number_of_words};
ghost use Rattle.hex_text.specs.PrivateWords.{number_of_word, values_of, pairs_of};

// 15 and 1 in each byte, 255 in each second byte.
const FIFTEENS: u32 = 0x0f0f0f0f;

const UNITS: u32 = 0x01010101;

const BYTES: u32 = 0x00ff00ff;

// The byte at a place, 0 past the end.
fn byte(s: &[u8], i: usize) -> u8
    ensures { result ≡ slice_index s.now i }
{
    s.get(i).copied().unwrap_or(0)
}

// The first four bytes of a part as one number, the first lowest: one load where they are there.
pub fn word(s: &[u8]) -> u32
    ensures { result ≡ word_at s.now 0 }
{
    match s.first_chunk::<4>() {
        Some(bytes) => u32::from_le_bytes(*bytes),
        None => u32::from_le_bytes([byte(s, 0), byte(s, 1), byte(s, 2), 0]),
    }
}

// What each byte's digit stands for, in its byte: the low four bits, and nine more for a letter. Seven less gives the same
// four bits, and no byte borrows from the next. As eight less and one more it is two shifts, not a product.
fn values(x: u32) -> u32
    ensures { (result ≡ values_of x) × (result ≤ 252645135) }
{
    let letters = (x >> 6) & UNITS;
    (x - 8 * letters + letters) & FIFTEENS
}

// Two digits to each second byte.
fn pairs(v: u32) -> u32
    requires { v ≤ 252645135 }
    ensures { (result ≡ pairs_of v) × (result ≤ 16711935) }
{
    (v * 16 + v / 256) & BYTES
}

// The number that the four digits in a word stand for.
pub(crate) fn number_of_word(x: u32) -> u16
    ensures { result ≡ number_of_word x }
{
    let p = pairs(values(x));
    ((p * 256 + p / 65536) % 65536) as u16
}

// The number that the eight digits in two words stand for.
pub fn number_of_words(x: u32, y: u32) -> u32
    ensures { result ≡ number_of_words x y }
{
    number_of_word(x) as u32 * 65536 + number_of_word(y) as u32
}
