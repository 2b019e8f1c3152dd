// One map row: the people of its marked cells, their largest key, and the first cell that has it.
ghost use Rattle.std.specs.Prelude.{◌≡◌, ℕ, ◌+◌, ◌*◌, ◌^◌, ◌<◌, ◌≤◌};
ghost use Rattle.arithmetic.specs.SumsAndMaxima.{max_below};
ghost use Rattle.arithmetic.specs.PrivateFirstMaximum.{first_max_below};
ghost use Rattle.map.specs.Size.{map_columns};
ghost use Rattle.map.specs.Map.{largest_count, count_at};
ghost use Rattle.footprint.specs.PrivateWalk.{row_key, joined, cell_tally, row_tally, row_walk};

use crate::masks::MASKS;
use map::MAP_COLUMNS;

// The bits of a footprint row to the right of its westernmost cell, and of its westernmost four.
const LAST_COLUMN: usize = MAP_COLUMNS - 1;

const LAST_FOUR: usize = MAP_COLUMNS - 4;

// A step over a map row takes four cells.
const STEPS: usize = MAP_COLUMNS / 4;

// A map row: its own 64 counts, each in its range, and its footprint row.
#[derive(Clone, Copy)]
pub(crate) struct MapRow<'a> {
    pub counts: &'a [u32; MAP_COLUMNS],
    pub bits: u64,
    ghost in_range: { (i : ℕ) → i < map_columns → count_at counts.now i ≤ largest_count },
}

// A map row's marked cells: their largest key, their people and their number. The key of no cell is 0: a maximum of numbers is one
// instruction for four cells, and of Options it is none.
#[derive(Clone, Copy, Default)]
pub(crate) struct RowWalk {
    pub worst: u32,
    pub people: u32,
    pub cells: u32,
}

// Some marked cells of a map row: their people, and the largest of their counts.
#[derive(Clone, Copy, Default)]
struct Tally {
    people: u32,
    most: u32,
}

// Both together.
fn joined(a: Tally, b: Tally) -> Tally
    requires { a.people + b.people < 2 ^ 32 }
    ensures { result ≡ joined a b }
{
    Tally {
        people: a.people + b.people,
        most: a.most.max(b.most),
    }
}

impl MapRow<'_> {
    // A cell's key: one more than its count where it is marked, else 0, so that any marked cell is above any other.
    fn key(self, column: usize) -> u32
        requires { column < map_columns }
        ensures { result ≡ row_key self.entry.counts.now self.entry.bits column }
    {
        if (self.bits >> (LAST_COLUMN - column)) % 2 == 1 {
            self.counts[column] + 1
        } else {
            0
        }
    }

    // The tally of the cell 4 * k + j. Four masks are one vector in memory; four bits would be tested one by one.
    fn cell(self, k: usize, j: usize) -> Tally
        requires { (k < 16) × (j < 4) }
        ensures { result ≡ cell_tally self.entry.counts.now self.entry.bits (4 * k + j) }
    {
        let four = ((self.bits >> (LAST_FOUR - 4 * k)) % 16) as usize;
        let count = self.counts[4 * k + j] & MASKS[four][j];
        Tally {
            people: count,
            most: count,
        }
    }

    // The tally of the row. Four lanes, so that the compiler makes a vector of a step's four cells.
    fn tally(self) -> Tally
        ensures { result ≡ row_tally self.entry.counts.now self.entry.bits }
    {
        let mut lanes = [Tally::default(); 4];
        for k in 0..STEPS {
            lanes = [
                joined(lanes[0], self.cell(k, 0)),
                joined(lanes[1], self.cell(k, 1)),
                joined(lanes[2], self.cell(k, 2)),
                joined(lanes[3], self.cell(k, 3)),
            ];
        }
        joined(joined(joined(lanes[0], lanes[1]), lanes[2]), lanes[3])
    }

    // The row's marked cells.
    pub(crate) fn walk(self) -> RowWalk
        ensures { result ≡ row_walk self.entry.counts.now self.entry.bits }
    {
        if self.bits == 0 {
            return RowWalk::default();
        }
        let tally = self.tally();
        RowWalk {
            worst: tally.most + 1,
            people: tally.people,
            cells: self.bits.count_ones(),
        }
    }

    // The first marked cell with the row's largest key.
    pub(crate) fn first_worst(self, worst: u32) -> usize
        requires { (0 < worst) × (worst ≡ max_below (row_key self.counts.now self.bits) map_columns) }
        ensures { result ≡ first_max_below (row_key self.entry.counts.now self.entry.bits) map_columns }
    {
        for column in 0..MAP_COLUMNS {
            if self.key(column) == worst {
                return column;
            }
        }
        0
    }
}
