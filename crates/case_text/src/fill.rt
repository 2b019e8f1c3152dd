// The fields of a tested text. Each byte gives some digit, so that nothing here depends on the test.
ghost use Rattle.std.specs.Prelude.{◌≡◌, ◌+◌, ◌*◌, ◌≤◌, length, get_or};
ghost use Rattle.arithmetic.specs.Lists.{tabulate};
ghost use Rattle.hex_text.specs.Digits.{field};
ghost use Rattle.hex_text.specs.Blocks.{line_digits, fields_at};
ghost use Rattle.hex_text.specs.Words.{word_at, number_of_words};
ghost use Rattle.case_text.specs.Layout.{mark_width, count_lines, text_len, map_rows, map_columns, map_cells};
ghost use Rattle.case_text.specs.Text.{head_of, marks_of, counts_of};

use crate::CaseHead;
use crate::layout::{
    CELL_AREA, CONTROLLED, COUNT_LINE, COUNT_LINE_DIGITS, COUNTS_START, DIMENSION, HEAD_DIGITS,
    MARK_LINE, MARKS_START, MASS, SPEED, TEXT_LENGTH, WORD,
};
use hex_text::{number_of_four, number_of_two, number_of_words, word};
use map::{MAP_CELLS, MAP_COLUMNS, MAP_ROWS};

// The digits of a word, and of two.
const WORD_DIGITS: usize = 4;

const TWO_WORDS: usize = 2 * WORD_DIGITS;

// One, with eight digits after it.
const AFTER_TWO_WORDS: u64 = 1 << 32;

// The words of a line of counts.
const WORDS: usize = 2 * MAP_COLUMNS;

// The four bytes from a place on as one number. Here and below a text goes with a place in it: a slice from the place on would have to be
// taken for each, and what it holds be said of the whole text again.
fn word_at(s: &[u8], at: usize) -> u32
    requires { at + 4 ≤ length s.now }
    ensures { result ≡ word_at s.now at }
{
    word(&s[at..at + WORD_DIGITS])
}

// The number in the field of eight digits that starts at a place.
fn eight_at(text: &[u8], at: usize) -> u32
    requires { at + 8 ≤ length text.now }
    ensures { result ≡ field text.now at 8 }
{
    number_of_words(word_at(text, at), word_at(text, at + WORD_DIGITS))
}

pub(crate) fn head_of(text: &[u8; TEXT_LENGTH]) -> CaseHead
    ensures { result ≡ head_of text.now }
{
    CaseHead {
        dimension: eight_at(text, DIMENSION),
        mass: eight_at(text, MASS),
        speed: eight_at(text, SPEED),
        cell_area: eight_at(text, CELL_AREA),
        controlled: number_of_two(&text[CONTROLLED..WORD]),
        word: number_of_four(&text[WORD..HEAD_DIGITS]),
    }
}

// The number in the footprint line that starts at a place.
fn mark_at(text: &[u8], at: usize) -> u64
    requires { at + mark_width ≤ length text.now }
    ensures { result ≡ field text.now at mark_width }
{
    eight_at(text, at) as u64 * AFTER_TWO_WORDS + eight_at(text, at + TWO_WORDS) as u64
}

pub(crate) fn fill_marks(text: &[u8; TEXT_LENGTH], marks: &mut [u64; MAP_ROWS])
    ensures { marks.new ≡ marks_of text.now }
{
    for (k, mark) in marks.iter_mut().enumerate() {
        *mark = mark_at(text, MARKS_START + MARK_LINE * k);
    }
}

// Each four bytes of a line as one number: a copy.
fn words_of(line: &[u8]) -> [u32; WORDS]
    requires { length line.now ≡ line_digits count_lines }
    ensures { result ≡ tabulate (λ i. word_at line.now (4 * i)) (2 * map_columns) }
{
    let mut words = [0; WORDS];
    for (i, word) in words.iter_mut().enumerate() {
        *word = word_at(line, WORD_DIGITS * i);
    }
    words
}

// The counts of one line. Vectorised, unlike a loop that also makes the words. The row is a part of all counts, lent by its places: of a
// slice after as_chunks_mut no proof knows its elements.
fn fill_row(line: &[u8], row: &mut [u32])
    requires { (length line.now ≡ line_digits count_lines) × (length row.old ≡ map_columns) }
    ensures { row.new ≡ fields_at count_lines.widths line.now 0 }
{
    let words = words_of(line);
    for (k, count) in row.iter_mut().enumerate() {
        *count = number_of_words(words[2 * k], words[2 * k + 1]);
    }
}

pub(crate) fn fill_counts(text: &[u8; TEXT_LENGTH], counts: &mut [u32; MAP_CELLS])
    ensures { counts.new ≡ counts_of text.now }
{
    for r in 0..MAP_ROWS {
        let at = COUNTS_START + COUNT_LINE * r;
        let to = MAP_COLUMNS * r;
        fill_row(
            &text[at..at + COUNT_LINE_DIGITS],
            &mut counts[to..to + MAP_COLUMNS],
        );
    }
}
