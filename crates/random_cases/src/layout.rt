// The places of a case text, as docs/RANDOM_CASES.md has them. case_text keeps its own to itself; its lengths are public.
ghost use Rattle.std.specs.Prelude.{◌<◌};
ghost use Rattle.case_text.specs.Layout.{map_rows};

// Rows, columns and cells of a map.
pub(crate) const ROWS: usize = case_text::MARKS_LENGTH;

pub(crate) const CELLS: usize = case_text::COUNTS_LENGTH;

pub(crate) const COLUMNS: usize = CELLS / ROWS;

pub(crate) const LAST_ROW: usize = ROWS - 1;

// Line 1: the digits of each field.
const NUMBER_WIDTH: usize = 8;

const MARK_WIDTH: usize = 2;

const WORD_WIDTH: usize = 4;

// Where each field starts, and after the last one its line end.
pub(crate) const DIMENSION: usize = 0;

pub(crate) const MASS: usize = DIMENSION + NUMBER_WIDTH;

pub(crate) const SPEED: usize = MASS + NUMBER_WIDTH;

pub(crate) const CELL_AREA: usize = SPEED + NUMBER_WIDTH;

pub(crate) const MARK: usize = CELL_AREA + NUMBER_WIDTH;

pub(crate) const WORD: usize = MARK + MARK_WIDTH;

pub(crate) const HEAD_END: usize = WORD + WORD_WIDTH;

// Where the text ends.
pub(crate) const TEXT_END: usize = case_text::TEXT_LENGTH;

// The digits of a line of the footprint, of a count, and of a line of counts.
pub(crate) const FOOTPRINT_DIGITS: usize = 16;

pub(crate) const COUNT_WIDTH: usize = 8;

pub(crate) const COUNT_LINE_DIGITS: usize = COUNT_WIDTH * COLUMNS;

// Lines one after the other: where the first starts, and how long each is with its line end. No hex_text::Lines, which tests a text and
// may have any numbers: places are made of these, and must fit.
#[derive(Clone, Copy)]
pub(crate) struct Block {
    start: usize,
    line: usize,
    ghost fits: { (start < 65536) × (line < 65536) },
}

pub(crate) const FOOTPRINT: Block = Block {
    start: HEAD_END + 1,
    line: FOOTPRINT_DIGITS + 1,
};

pub(crate) const COUNTS: Block = Block {
    start: FOOTPRINT.start + FOOTPRINT.line * ROWS,
    line: COUNT_LINE_DIGITS + 1,
};

impl Block {
    // A place in a line: of a digit, or of the line end after the digits.
    pub(crate) fn place(self, row: usize, digit: usize) -> usize
        requires { (row < map_rows) × (digit < 65536) }
    {
        self.start + self.line * row + digit
    }
}
