// Kinds 14 to 18 and 21: damaged texts, and lengths.
ghost use Rattle.std.specs.Prelude.{◌<◌};
ghost use Rattle.case_text.specs.Layout.{map_rows};

use crate::layout::{
    CELLS, COUNT_LINE_DIGITS, COUNTS, FOOTPRINT, FOOTPRINT_DIGITS, HEAD_END, LAST_ROW, ROWS,
    TEXT_END,
};
use crate::parts::{Damage, RandomCase};
use crate::random::Source;
use frame::FRAME_LENGTH;

const NO_DIGITS: [u8; 14] = [0, 47, 58, 64, 65, 66, 67, 68, 69, 70, 96, 103, 255, 10];

const NO_LINE_ENDS: [u8; 19] = [
    0, 47, 58, 64, 65, 66, 67, 68, 69, 70, 96, 103, 255, 13, 48, 57, 97, 102, 11,
];

// The place of a digit in line 1, in the footprint or in the counts. docs/RANDOM_CASES.md numbers the turns here and below, and each is
// taken in one place: an enum would only number them again.
fn draw_digit_place(source: &mut Source, turn: u64) -> usize {
    if turn == 0 {
        return source.below(HEAD_END as u64) as usize;
    }
    let row = source.below(ROWS as u64) as usize;
    if turn == 1 {
        FOOTPRINT.place(row, source.below(FOOTPRINT_DIGITS as u64) as usize)
    } else {
        COUNTS.place(row, source.below(COUNT_LINE_DIGITS as u64) as usize)
    }
}

pub(crate) fn wrong_digit(plain: RandomCase, i: u64) -> RandomCase {
    let mut case = plain;
    let byte = NO_DIGITS[(i % 14) as usize];
    let place = draw_digit_place(&mut case.source, i / 14 % 3);
    case.damage = Some(Damage { place, byte });
    case
}

// The place of a line end: of line 1, of a footprint line, of a line of counts, or of the last.
fn line_end(turn: u64, row: usize) -> usize
    requires { row < map_rows }
{
    match turn {
        0 => HEAD_END,
        1 => FOOTPRINT.place(row, FOOTPRINT_DIGITS),
        2 => COUNTS.place(row, COUNT_LINE_DIGITS),
        _ => COUNTS.place(LAST_ROW, COUNT_LINE_DIGITS),
    }
}

pub(crate) fn wrong_line_end(plain: RandomCase, i: u64) -> RandomCase {
    let mut case = plain;
    let byte = NO_LINE_ENDS[(i % 19) as usize];
    let row = case.source.below(ROWS as u64) as usize;
    let place = line_end(i / 19 % 4, row);
    case.damage = Some(Damage { place, byte });
    case
}

pub(crate) fn text_lengths(plain: RandomCase, i: u64) -> RandomCase {
    let mut case = plain;
    let drawn = case.source.below(TEXT_END as u64) as usize;
    case.text_length = match i % 5 {
        0 => 0,
        1 => TEXT_END - 1,
        2 => TEXT_END + 1,
        3 => drawn,
        _ => TEXT_END,
    };
    if 50 <= i {
        case.damage = Some(Damage {
            place: 0,
            byte: 103,
        });
    }
    case
}

// Lengths of the count buffer and of the footprint buffer.
const BUFFER_LENGTHS: [(usize, usize); 8] = [
    (0, ROWS),
    (CELLS - 1, ROWS),
    (CELLS + 1, ROWS),
    (CELLS, 0),
    (CELLS, ROWS - 1),
    (CELLS, ROWS + 1),
    (CELLS - 1, ROWS + 1),
    (CELLS, ROWS),
];

pub(crate) fn buffer_lengths(plain: RandomCase, i: u64) -> RandomCase {
    let mut case = plain;
    (case.counts_length, case.footprint_length) = BUFFER_LENGTHS[(i % 8) as usize];
    if 40 <= i {
        case.damage = Some(Damage {
            place: TEXT_END - 1,
            byte: 48,
        });
    }
    if 80 <= i {
        case.text_length = TEXT_END - 1;
    }
    case
}

// Frame buffers that are longer than a frame are so by less than this.
pub(crate) const LONGER_FRAMES: usize = 24;

pub(crate) fn frame_lengths(plain: RandomCase, i: u64) -> RandomCase {
    let mut case = plain;
    let drawn = case.source.below(LONGER_FRAMES as u64) as usize;
    case.frame_length = if i < FRAME_LENGTH as u64 {
        i as usize
    } else if i % 2 == 1 {
        FRAME_LENGTH + drawn
    } else {
        drawn
    };
    if 70 <= i {
        case.text_length = 0;
    }
    case
}

pub(crate) fn any_byte(plain: RandomCase, _i: u64) -> RandomCase {
    let mut case = plain;
    let place = case.source.below(TEXT_END as u64) as usize;
    let byte = case.source.below(256) as u8;
    case.damage = Some(Damage { place, byte });
    case
}
