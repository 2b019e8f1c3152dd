// A map of head counts and the marks of a footprint on it: its size, its ranges, its refusals, and the table row of a cell.
#![tactic(auto)]

mod counts;
mod density;
mod marks;

ghost use Rattle.std.specs.Prelude.{◌≡◌};
ghost use Rattle.refusal.specs.Numbers.{number_in};
ghost use Rattle.refusal.specs.Refusals.{first_refusal};
ghost use Rattle.map.specs.GroundMap.{map_of};
ghost use Rattle.map.specs.Refusals.{map_tests};

pub use crate::counts::check_counts;
use crate::counts::wrong_count;
pub use crate::density::table_row;
use crate::marks::no_mark;
use refusal::Refusal;

// The size of a map.
pub const MAP_ROWS: usize = 64;

pub const MAP_COLUMNS: usize = 64;

pub const MAP_CELLS: usize = MAP_ROWS * MAP_COLUMNS;

// The range of a head count ends here; it starts at 0.
pub const LARGEST_COUNT: u32 = 1000000;

// The range of the cell area, in square metres.
pub const LEAST_AREA: u32 = 100;

pub const LARGEST_AREA: u32 = 25000000;

// A map as it is lent: its head counts, row after row, and the area of each cell.
#[derive(Clone, Copy)]
pub struct GroundMap<'a> {
    pub counts: &'a [u32],
    pub cell_area: u32,
}

impl GroundMap<'_> {
    // Refusals 5 to 8, of the map and the marks on it.
    pub fn check(self, marks: &[u64]) -> Result<(), Refusal>
        ensures { number_in result ≡ first_refusal (map_tests (map_of self.entry) marks.now) }
    {
        let Ok(counts) = <&[u32; MAP_CELLS]>::try_from(self.counts) else {
            return Err(Refusal::BufferLength);
        };
        let Ok(marks) = <&[u64; MAP_ROWS]>::try_from(marks) else {
            return Err(Refusal::BufferLength);
        };
        if (self.cell_area < LEAST_AREA) | (LARGEST_AREA < self.cell_area) {
            return Err(Refusal::CellArea);
        }
        if wrong_count(counts) {
            return Err(Refusal::HeadCount);
        }
        if no_mark(marks) {
            return Err(Refusal::NoMark);
        }
        Ok(())
    }
}
