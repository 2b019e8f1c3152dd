// Steps that kinds share.
ghost use Rattle.std.specs.Prelude.{◌<◌};
ghost use Rattle.case_text.specs.Layout.{map_cells};

use crate::layout::{CELLS, COLUMNS};
use crate::parts::{RandomCase, Rows, SingleCount};
use crate::tables::COLUMN_AIRCRAFT;

pub(crate) const ALL_ONES: u64 = u64::MAX;

// The bit of column 0.
pub(crate) const HIGHEST_BIT: u64 = 1 << 63;

// 0 for none, then 2, 3, ..: the digits that M1(B) and M2 offer.
fn from_medium(n: u64) -> u64
    requires { n < 3 }
    ensures { result < 4 }
{
    if n == 0 { 0 } else { n + 1 }
}

pub(crate) fn offered_word(a: u64, b: u64, c: u64, d: u64) -> u64
    requires { (a < 3) × (b < 3) × (c < 2) × (d < 3) }
{
    a * 4096 + from_medium(b) * 256 + c * 16 + from_medium(d)
}

impl RandomCase {
    // All counts 0, 1 or 2, so that each cell is in row 2.
    pub(crate) fn calm(mut self) -> RandomCase {
        self.cell_area = 1_000_000;
        self.mark = 0;
        self.word = 0;
        if let Some(rows) = &mut self.rows {
            rows.marks |= HIGHEST_BIT;
        }
        self.spread = 3;
        self
    }

    pub(crate) fn with_aircraft(mut self, (dimension, mass, speed): (u32, u32, u32)) -> RandomCase {
        self.dimension = dimension.into();
        self.mass = mass.into();
        self.speed = speed.into();
        self
    }

    // An aircraft of column c + 1.
    pub(crate) fn with_column(self, c: usize) -> RandomCase
        requires { c < 5 }
    {
        self.with_aircraft(COLUMN_AIRCRAFT[c])
    }

    pub(crate) fn with_rows(mut self, first: usize, last: usize, marks: u64) -> RandomCase {
        self.rows = Some(Rows { first, last, marks });
        self
    }

    pub(crate) fn with_one_cell(self, place: usize) -> RandomCase {
        let row = place / COLUMNS;
        self.with_rows(row, row, HIGHEST_BIT >> (place % COLUMNS))
    }

    // This count and no other at the place, which is the only marked cell.
    pub(crate) fn with_count_marked(mut self, place: usize, count: u64) -> RandomCase {
        self.count_1 = Some(SingleCount { place, count });
        self.with_one_cell(place)
    }

    // A place of the map.
    pub(crate) fn draw_place(&mut self) -> usize
        ensures { result < map_cells }
    {
        self.source.below(CELLS as u64) as usize
    }
}
