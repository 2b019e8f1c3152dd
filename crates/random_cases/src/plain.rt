// The plain case.
use crate::layout::{CELLS, ROWS, TEXT_END};
use crate::parts::{RandomCase, Rows};
use crate::random::Source;
use crate::steps::offered_word;
use frame::FRAME_LENGTH;

const SPREADS: [u64; 7] = [1, 2, 8, 50, 500, 5000, 65536];

// What the numbers of line 1 are drawn from: the first and the last number of each band.
const DIMENSION_BANDS: [(u32, u32); 4] = [(50, 999), (1000, 7999), (8000, 20000), (20001, 100000)];

const MASS_BANDS: [(u32, u32); 4] = [
    (50, 1000),
    (1001, 25000),
    (25001, 1000000),
    (1000001, 25000000),
];

const SPEED_BANDS: [(u32, u32); 4] = [(0, 2500), (2501, 7500), (7501, 20000), (20001, 40000)];

const CELL_AREA_BANDS: [(u32, u32); 3] = [(100, 10000), (10001, 1000000), (1000001, 25000000)];

fn draw_word(source: &mut Source) -> u64 {
    let a = source.below(3);
    let b = source.below(3);
    let c = source.below(2);
    offered_word(a, b, c, source.below(3))
}

fn draw_rows(source: &mut Source) -> Rows {
    let first = source.below(ROWS as u64);
    let last = first + source.below(ROWS as u64 - first);
    Rows {
        first: first as usize,
        last: last as usize,
        marks: source.bits_64(),
    }
}

pub(crate) fn plain_case(from: Source) -> RandomCase {
    let mut source = from;
    let dimension = source.of_bands(&DIMENSION_BANDS);
    let mass = source.of_bands(&MASS_BANDS);
    let speed = source.of_bands(&SPEED_BANDS);
    let cell_area = source.of_bands(&CELL_AREA_BANDS);
    let mark = if source.below(4) == 0 { 1 } else { 0 };
    let word = draw_word(&mut source);
    let rows = draw_rows(&mut source);
    let spread = SPREADS[source.below(7) as usize];
    RandomCase {
        source,
        dimension,
        mass,
        speed,
        cell_area,
        mark,
        word,
        rows: Some(rows),
        base: 0,
        spread,
        count_1: None,
        count_2: None,
        damage: None,
        text_length: TEXT_END,
        counts_length: CELLS,
        footprint_length: ROWS,
        frame_length: FRAME_LENGTH,
    }
}
