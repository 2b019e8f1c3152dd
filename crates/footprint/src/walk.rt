// The walk over the map, row by row.
ghost use Rattle.std.specs.Prelude.{◌≡◌, ◌+◌, ◌*◌, ◌^◌, ◌<◌, get_or};
ghost use Rattle.arithmetic.specs.Lists.{part};
ghost use Rattle.refusal.specs.Refusals.{first_refusal};
ghost use Rattle.map.specs.GroundMap.{map_of};
ghost use Rattle.map.specs.Size.{map_rows, map_columns};
ghost use Rattle.map.specs.Refusals.{map_tests};
ghost use Rattle.footprint.specs.PrivateWalk.{with_row, map_walk};

use crate::row::{MapRow, RowWalk};
use map::{GroundMap, MAP_COLUMNS, MAP_ROWS};

// A map and the marks of a footprint on it, which are not refused.
#[derive(Clone, Copy)]
pub(crate) struct MarkedMap<'a> {
    pub map: GroundMap<'a>,
    pub marks: &'a [u64],
    ghost accepted: { first_refusal (map_tests (map_of map) marks.now) ≡ 0 },
}

// The map rows so far: the first worst row, and its largest key.
#[derive(Clone, Copy, Default)]
pub(crate) struct MapWalk {
    pub worst: u32,
    pub row: usize,
    pub people: u64,
    pub cells: u32,
}

// The rows so far, and the row r.
fn with_row(w: MapWalk, b: RowWalk, r: usize) -> MapWalk
    requires { (w.people + b.people < 2 ^ 64) × (w.cells + b.cells < 2 ^ 32) }
    ensures { result ≡ with_row w b r }
{
    let people = w.people + b.people as u64;
    let cells = w.cells + b.cells;
    if w.worst < b.worst {
        return MapWalk {
            worst: b.worst,
            row: r,
            people,
            cells,
        };
    }
    MapWalk {
        worst: w.worst,
        row: w.row,
        people,
        cells,
    }
}

impl<'a> MarkedMap<'a> {
    // The row r, lent as its own 64 counts.
    pub(crate) fn row(self, r: usize) -> MapRow<'a>
        requires { r < map_rows }
        ensures counts { result.counts.now ≡ part self.entry.map.counts.now (map_columns * r) (map_columns * r + map_columns) }
        ensures bits { result.bits ≡ get_or self.entry.marks.now r 0 }
    {
        let (rows, _) = self.map.counts.as_chunks::<MAP_COLUMNS>();
        MapRow {
            counts: &rows[r],
            bits: self.marks[r],
        }
    }

    // All map rows.
    pub(crate) fn walk(self) -> MapWalk
        ensures { result ≡ map_walk self.entry.map.counts.now self.entry.marks.now map_rows }
    {
        let mut w = MapWalk::default();
        for r in 0..MAP_ROWS {
            w = with_row(w, self.row(r).walk(), r);
        }
        w
    }
}
