// The printed frame.
#![tactic(auto)]

ghost use Rattle.std.specs.Prelude.{◌≡◌, ◌<◌, ◌++◌, length};
ghost use Rattle.arithmetic.specs.Lists.{stored};
ghost use Rattle.refusal.specs.Numbers.{number_in};
ghost use Rattle.hex_text.specs.Digits.{written, line_end};
ghost use Rattle.frame.specs.Frame.{class_byte, frame_fields, refusal_line, printed, WritingContract};

use hex_text::{LINE_END, write_digits};
use refusal::Refusal;

// The digits of each field.
const REFUSAL_WIDTH: usize = 2;

const AREA_WIDTH: usize = 8;

const COLUMN_WIDTH: usize = 2;

const FLAG_WIDTH: usize = 2;

const SIZE_COLUMN_WIDTH: usize = 2;

const ROW_WIDTH: usize = 2;

const PLACE_WIDTH: usize = 4;

const PEOPLE_WIDTH: usize = 8;

const CLASS_WIDTH: usize = 2;

// How many fields a frame has.
const FIELDS: usize = 11;

// How long the frame is with its line end.
pub const FRAME_LENGTH: usize = REFUSAL_WIDTH
    + 2 * AREA_WIDTH
    + COLUMN_WIDTH
    + FLAG_WIDTH
    + SIZE_COLUMN_WIDTH
    + ROW_WIDTH
    + PLACE_WIDTH
    + PEOPLE_WIDTH
    + 2 * CLASS_WIDTH
    + 1;

// How long the line of a printed refusal is.
pub const REFUSAL_LENGTH: usize = REFUSAL_WIDTH + 1;

// The fields of a printed frame. Of a number that is longer than its field, the last digits are printed.
#[repr(C)]
#[derive(Clone, Copy)]
pub struct FrameFields {
    pub low: u64,
    pub high: u64,
    pub column: u8,
    pub flag: u8,
    pub size_column: u8,
    pub row_used: u8,
    pub place: u32,
    pub people: u64,
    pub intrinsic: u8,
    pub final_class: i8,
}

// A final class as a byte: -1 is ff. Not cast_unsigned: below -1 it gives other bytes.
fn class_byte(c: i8) -> u8
    ensures { result ≡ class_byte c }
{
    u8::try_from(c).unwrap_or(255)
}

// A field: its digits, and the number in them.
type Field = (usize, u64);

// The fields in their order.
fn frame_fields(f: FrameFields) -> [Field; FIELDS]
    ensures { result ≡ frame_fields f }
{
    [
        (REFUSAL_WIDTH, 0),
        (AREA_WIDTH, f.low),
        (AREA_WIDTH, f.high),
        (COLUMN_WIDTH, f.column as u64),
        (FLAG_WIDTH, f.flag as u64),
        (SIZE_COLUMN_WIDTH, f.size_column as u64),
        (ROW_WIDTH, f.row_used as u64),
        (PLACE_WIDTH, f.place as u64),
        (PEOPLE_WIDTH, f.people),
        (CLASS_WIDTH, f.intrinsic as u64),
        (CLASS_WIDTH, class_byte(f.final_class) as u64),
    ]
}

// Writes fields, and a line end after them: takes the part for the first field off the front of the line, and keeps the rest for the
// others. Not a loop: after one that carries the rest no proof knows what the whole line holds.
fn write_line(fields: &[Field], line: &mut [u8])
    requires { length (written fields.now) < length line.old }
    ensures { line.new ≡ stored 0 (written fields.now ++ line_end) line.old }
{
    let Some(((width, number), others)) = fields.split_first() else {
        line[0] = LINE_END;
        return;
    };
    let (part, rest) = line.split_at_mut(*width);
    write_digits(part, *number);
    write_line(others, rest);
}

// Writes a refusal at the start of the lent buffer, or refuses a buffer that is too short. The number is a u8 since C may pass any.
pub fn write_refusal(refusal: u8, buffer: &mut [u8]) -> Result<(), Refusal>
    ensures { WritingContract (refusal_line refusal) buffer.old (number_in result) buffer.new }
{
    let Some(line) = buffer.first_chunk_mut::<FRAME_LENGTH>() else {
        return Err(Refusal::FrameLength);
    };
    write_line(&[(REFUSAL_WIDTH, refusal as u64)], line);
    Ok(())
}

// Writes the frame at the start of the lent buffer, or the refusal where there is one, or refuses a buffer that is too short. In place
// of each call the compiler works on many digits at once, 240 instructions a frame; as a function of its own it took 449.
#[inline(always)]
pub fn write_frame(refusal: u8, fields: FrameFields, buffer: &mut [u8]) -> Result<(), Refusal>
    ensures { WritingContract (printed refusal fields) buffer.old (number_in result) buffer.new }
{
    if refusal != 0 {
        return write_refusal(refusal, buffer);
    }
    let Some(frame) = buffer.first_chunk_mut::<FRAME_LENGTH>() else {
        return Err(Refusal::FrameLength);
    };
    write_line(&frame_fields(fields), frame);
    Ok(())
}
