// Kinds 6 to 8, 19 and 23: the counts and the footprint.
ghost use Rattle.std.specs.Prelude.{◌<◌};

use crate::layout::{CELLS, COLUMNS, LAST_ROW, ROWS};
use crate::parts::{RandomCase, SingleCount};
use crate::random::Source;
use crate::steps::{ALL_ONES, HIGHEST_BIT};

// People per square kilometre from which rows 3 to 7 count.
const ROW_DENSITIES: [u16; 5] = [5, 50, 500, 5000, 50000];

const EDGE_COUNTS: [u64; 4] = [999999, 1000000, 1000001, 4294967295];

// In the first fifty cases a cell area in which each density is a whole number of people.
fn draw_boundary_area(source: &mut Source, i: u64) -> u64
    ensures { result < 8589934592 }
{
    if i < 50 {
        200_000 * (1 + source.below(100))
    } else {
        source.of_band((100, 20_000_000))
    }
}

// The least number of people in a cell that makes a density.
fn people_at(density: u16, area: u64) -> u64
    requires { area < 8589934592 }
{
    (u64::from(density) * area).div_ceil(1_000_000)
}

pub(crate) fn row_boundaries(plain: RandomCase, i: u64) -> RandomCase {
    let mut case = plain.with_column(0);
    case.mark = 0;
    case.word = 0;
    case.cell_area = draw_boundary_area(&mut case.source, i);
    let people = people_at(ROW_DENSITIES[(i % 5) as usize], case.cell_area);
    let place = case.draw_place();
    case.with_count_marked(place, people.saturating_sub(1) + i / 5 % 2)
}

pub(crate) fn count_ties(plain: RandomCase, i: u64) -> RandomCase {
    let mut case = plain.with_column((i % 5) as usize);
    case.spread = 1 + case.source.below(3);
    let place_1 = case.draw_place();
    let place_2 = case.draw_place();
    let count = 100 + case.source.below(100);
    case.count_1 = Some(SingleCount {
        place: place_1,
        count,
    });
    case.count_2 = Some(SingleCount {
        place: place_2,
        count,
    });
    match i % 3 {
        0 => {
            case.rows = None;
            case
        }
        1 => case,
        _ => case.with_rows(0, LAST_ROW, ALL_ONES),
    }
}

pub(crate) fn count_edges(plain: RandomCase, i: u64) -> RandomCase {
    let mut case = plain.calm().with_column(0);
    let place = case.draw_place();
    case.cell_area = 25_000_000;
    let other = (place + 1 + case.source.below(CELLS as u64 - 1) as usize) % CELLS;
    let case = case.with_count_marked(place, EDGE_COUNTS[(i % 4) as usize]);
    if i / 4 % 2 == 1 {
        case
    } else {
        case.with_one_cell(other)
    }
}

// docs/RANDOM_CASES.md numbers the shapes, and each is taken in one place: an enum would only number them again.
fn with_shape(case: RandomCase, shape: u64, row: usize, place: usize) -> RandomCase {
    match shape {
        0 => case.with_one_cell(0),
        1 => case.with_one_cell(COLUMNS - 1),
        2 => case.with_one_cell(CELLS - COLUMNS),
        3 => case.with_one_cell(CELLS - 1),
        4 => case.with_rows(0, LAST_ROW, ALL_ONES),
        5 => case.with_rows(0, LAST_ROW, 0),
        6 => case.with_rows(row, row, ALL_ONES),
        7 => case.with_rows(0, LAST_ROW, HIGHEST_BIT),
        8 => case.with_rows(0, LAST_ROW, 1),
        _ => case.with_one_cell(place),
    }
}

pub(crate) fn footprint_shapes(plain: RandomCase, i: u64) -> RandomCase {
    let mut case = plain.with_column(0);
    case.cell_area = 25_000_000;
    case.mark = 0;
    case.spread = 5000;
    let row = case.source.below(ROWS as u64) as usize;
    let place = case.draw_place();
    with_shape(case, i % 10, row, place)
}

pub(crate) fn many_people(plain: RandomCase, i: u64) -> RandomCase {
    let mut case = plain
        .with_column((i % 2) as usize)
        .with_rows(0, LAST_ROW, ALL_ONES);
    case.cell_area = 25_000_000;
    case.mark = 0;
    let place = case.draw_place();
    match i % 4 {
        0 => (case.base, case.spread) = (1_000_000, 1),
        1 => (case.base, case.spread) = (934_465, 65_536),
        2 => {
            (case.base, case.spread) = (934_465, 65_536);
            case.rows = None;
        }
        _ => {
            (case.base, case.spread) = (999_999, 2);
            case.count_1 = Some(SingleCount { place, count: 0 });
        }
    }
    case
}
