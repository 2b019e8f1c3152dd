// The reading of a case text.
#![tactic(auto)]

mod fill;
mod layout;

ghost use Rattle.std.specs.Prelude.{◌≡◌};
ghost use Rattle.case_text.specs.Text.{is_text, reading_answer, ReadingContract};

use fill::{fill_counts, fill_marks, head_of};
use layout::{COUNTS, HEAD, MARKS};
use refusal::Refusal;

// How long a text is, and how many counts and footprint rows it has.
pub const TEXT_LENGTH: usize = layout::TEXT_LENGTH;

pub const COUNTS_LENGTH: usize = map::MAP_CELLS;

pub const MARKS_LENGTH: usize = map::MAP_ROWS;

// Line 1 of a case text.
#[repr(C)]
#[derive(Clone, Copy, Default)]
pub struct CaseHead {
    pub dimension: u32,
    pub mass: u32,
    pub speed: u32,
    pub cell_area: u32,
    pub controlled: u8,
    pub word: u16,
}

// What a reading answers to C: the refusal number, 0 where there is none, and line 1, all zeros where it is refused.
#[repr(C)]
#[derive(Clone, Copy)]
pub struct Reading {
    pub refusal: u8,
    pub head: CaseHead,
}

impl From<Result<CaseHead, Refusal>> for Reading {
    ghost from_gives = { λ r a. a ≡ reading_answer r };

    fn from(answer: Result<CaseHead, Refusal>) -> Reading {
        match answer {
            Ok(head) => Reading { refusal: 0, head },
            Err(refusal) => Reading {
                refusal: u8::from(refusal),
                head: CaseHead::default(),
            },
        }
    }
}

// No early exit from the bytes: the loops are vectorised.
fn is_text(text: &[u8]) -> bool
    ensures { result ≡ is_text text.now }
{
    HEAD.stand_in(text) & MARKS.stand_in(text) & COUNTS.stand_in(text)
}

// Reads a case text into the lent map buffers. All bytes are tested before any is stored. The lengths that are wanted stand in the
// types of the functions that take the arrays. The buffers stay two parameters: C lends two, and each is filled by itself.
pub fn read_case(text: &[u8], counts: &mut [u32], marks: &mut [u64]) -> Result<CaseHead, Refusal>
    ensures { ReadingContract text.now (record { counts = counts.old; marks = marks.old }) (reading_answer result)
        (record { counts = counts.new; marks = marks.new }) }
{
    let text = text.as_array().ok_or(Refusal::TextLength)?;
    let counts = counts.as_mut_array().ok_or(Refusal::BufferLength)?;
    let marks = marks.as_mut_array().ok_or(Refusal::BufferLength)?;
    if !is_text(text) {
        return Err(Refusal::TextByte);
    }
    fill_counts(text, counts);
    fill_marks(text, marks);
    Ok(head_of(text))
}
