// The layout of a case text: the width of each field in digits, the lines, and where each field and each block starts.
use hex_text::Lines;
use map::{MAP_COLUMNS, MAP_ROWS};

// Line 1: the digits of each field.
const DIMENSION_WIDTH: usize = 8;

const MASS_WIDTH: usize = 8;

const SPEED_WIDTH: usize = 8;

const CELL_AREA_WIDTH: usize = 8;

const CONTROLLED_WIDTH: usize = 2;

const WORD_WIDTH: usize = 4;

// Where each field starts, the digits of the line, and how long it is with its line end.
pub(crate) const DIMENSION: usize = 0;

pub(crate) const MASS: usize = DIMENSION + DIMENSION_WIDTH;

pub(crate) const SPEED: usize = MASS + MASS_WIDTH;

pub(crate) const CELL_AREA: usize = SPEED + SPEED_WIDTH;

pub(crate) const CONTROLLED: usize = CELL_AREA + CELL_AREA_WIDTH;

pub(crate) const WORD: usize = CONTROLLED + CONTROLLED_WIDTH;

pub(crate) const HEAD_DIGITS: usize = WORD + WORD_WIDTH;

const HEAD_LINE: usize = HEAD_DIGITS + 1;

// A line of the footprint: its digits, and with its line end.
const MARK_WIDTH: usize = 16;

pub(crate) const MARK_LINE: usize = MARK_WIDTH + 1;

// A line of counts: the digits of a count, of the line, and with its line end.
const COUNT_WIDTH: usize = 8;

pub(crate) const COUNT_LINE_DIGITS: usize = COUNT_WIDTH * MAP_COLUMNS;

pub(crate) const COUNT_LINE: usize = COUNT_LINE_DIGITS + 1;

// Where line 1 starts, the footprint's lines and the counts' lines, and how long the text is.
const HEAD_START: usize = 0;

pub(crate) const MARKS_START: usize = HEAD_START + HEAD_LINE;

pub(crate) const COUNTS_START: usize = MARKS_START + MARK_LINE * MAP_ROWS;

pub(crate) const TEXT_LENGTH: usize = COUNTS_START + COUNT_LINE * MAP_ROWS;

// The blocks of the text.
pub(crate) const HEAD: Lines = Lines {
    start: HEAD_START,
    each: HEAD_LINE,
    count: 1,
};

pub(crate) const MARKS: Lines = Lines {
    start: MARKS_START,
    each: MARK_LINE,
    count: MAP_ROWS,
};

pub(crate) const COUNTS: Lines = Lines {
    start: COUNTS_START,
    each: COUNT_LINE,
    count: MAP_ROWS,
};
