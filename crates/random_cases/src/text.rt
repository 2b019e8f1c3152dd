// The text of a random case.
use crate::layout::{
    CELL_AREA, CELLS, COLUMNS, COUNT_LINE_DIGITS, COUNT_WIDTH, COUNTS, DIMENSION, FOOTPRINT,
    FOOTPRINT_DIGITS, HEAD_END, MARK, MASS, ROWS, SPEED, TEXT_END, WORD,
};
use crate::parts::{RandomCase, SingleCount};
use crate::random::Source;
use hex_text::{LINE_END, write_digits};

// A number in the digits from a place up to another; nothing where the text has no such part.
fn write_number(text: &mut [u8], start: usize, end: usize, value: u64) {
    if let Some(part) = text.get_mut(start..end) {
        write_digits(part, value);
    }
}

// A byte at a place; nothing where the text has no such place.
fn write_byte(text: &mut [u8], at: usize, byte: u8) {
    if let Some(old) = text.get_mut(at) {
        *old = byte;
    }
}

// Line 1.
fn write_head(text: &mut [u8], case: RandomCase) {
    write_number(text, DIMENSION, MASS, case.dimension);
    write_number(text, MASS, SPEED, case.mass);
    write_number(text, SPEED, CELL_AREA, case.speed);
    write_number(text, CELL_AREA, MARK, case.cell_area);
    write_number(text, MARK, WORD, case.mark);
    write_number(text, WORD, HEAD_END, case.word);
    write_byte(text, HEAD_END, LINE_END);
}

// The marks of a footprint row.
fn draw_row(case: &mut RandomCase, row: usize) -> u64 {
    match case.rows {
        None => case.source.bits_64(),
        Some(rows) if rows.first <= row && row <= rows.last => rows.marks,
        Some(_) => 0,
    }
}

fn write_rows(text: &mut [u8], case: &mut RandomCase) {
    for row in 0..ROWS {
        let marks = draw_row(case, row);
        let end = FOOTPRINT.place(row, FOOTPRINT_DIGITS);
        write_number(text, FOOTPRINT.place(row, 0), end, marks);
        write_byte(text, end, LINE_END);
    }
}

// Base and a draw below spread. With spread 1 each draw is 0, and is left out.
fn draw_count(source: &mut Source, base: u32, spread: u64) -> u64 {
    if spread <= 1 {
        return base.into();
    }
    u64::from(base) + source.below(spread)
}

// A count at a place of the map; nothing where it has no such place.
fn write_count(text: &mut [u8], place: usize, count: u64) {
    if CELLS <= place {
        return;
    }
    let row = place / COLUMNS;
    let digit = COUNT_WIDTH * (place % COLUMNS);
    let end = COUNTS.place(row, digit + COUNT_WIDTH);
    write_number(text, COUNTS.place(row, digit), end, count);
}

fn write_counts(text: &mut [u8], case: &mut RandomCase) {
    for place in 0..CELLS {
        let count = draw_count(&mut case.source, case.base, case.spread);
        write_count(text, place, count);
    }
}

fn write_count_line_ends(text: &mut [u8]) {
    for row in 0..ROWS {
        write_byte(text, COUNTS.place(row, COUNT_LINE_DIGITS), LINE_END);
    }
}

fn write_single_count(text: &mut [u8], single: Option<SingleCount>) {
    if let Some(SingleCount { place, count }) = single {
        write_count(text, place, count);
    }
}

// The text of the case, one more line end after it, and the damage.
pub(crate) fn write_text(text: &mut [u8], mut case: RandomCase) {
    write_head(text, case);
    write_rows(text, &mut case);
    write_counts(text, &mut case);
    write_count_line_ends(text);
    write_single_count(text, case.count_1);
    write_single_count(text, case.count_2);
    write_byte(text, TEXT_END, LINE_END);
    if let Some(damage) = case.damage {
        write_byte(text, damage.place, damage.byte);
    }
}
