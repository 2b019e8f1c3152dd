// The footprint on the map: the marked cells' highest table row, first largest count, people and number.
#![tactic(auto)]

mod masks;
mod row;
mod walk;

ghost use Rattle.std.specs.Prelude.{◌≡◌};
ghost use Rattle.map.specs.GroundMap.{map_of};
ghost use Rattle.map.specs.Size.{map_rows};
ghost use Rattle.footprint.specs.Footprint.{refused_footprint, accepted_cells, footprint_answer, accepted_footprint, footprint_of};
ghost use Rattle.footprint.specs.PrivateWalk.{map_walk};

use crate::walk::{MapWalk, MarkedMap};
use map::{GroundMap, MAP_COLUMNS, table_row};
use refusal::Refusal;

// The marked cells of a map: their highest table row, the place of the first with the largest count, their people and their number.
#[derive(Clone, Copy)]
pub struct MarkedCells {
    pub row: u8,
    pub place: u32,
    pub people: u64,
    pub cells: u32,
}

// The answer for C, by the words of document 01: a refusal number, 0 for none, and the marked cells, all zeros where it is refused.
#[repr(C)]
#[derive(Clone, Copy, Default)]
pub struct Footprint {
    pub refusal: u8,
    pub row: u8,
    pub place: u32,
    pub people: u64,
    pub cells: u32,
}

impl Footprint {
    // A refused footprint for C: all other numbers zero.
    pub fn refused(refusal: u8) -> Footprint
        ensures { result ≡ refused_footprint refusal }
    {
        Footprint {
            refusal,
            ..Footprint::default()
        }
    }
}

impl From<Result<MarkedCells, Refusal>> for Footprint {
    ghost from_gives = { λ r a. a ≡ footprint_answer r };

    fn from(answer: Result<MarkedCells, Refusal>) -> Footprint {
        match answer {
            Ok(marked) => Footprint {
                refusal: 0,
                row: marked.row,
                place: marked.place,
                people: marked.people,
                cells: marked.cells,
            },
            Err(refusal) => Footprint::refused(u8::from(refusal)),
        }
    }
}

// The answer from a walk over a whole map that isn't refused.
fn marked_cells(m: MarkedMap, w: MapWalk) -> MarkedCells
    requires { w ≡ map_walk m.map.counts.now m.marks.now map_rows }
    ensures { accepted_cells result ≡ accepted_footprint (map_of m.entry.map) m.entry.marks.now }
{
    let column = m.row(w.row).first_worst(w.worst);
    MarkedCells {
        row: table_row(w.worst - 1, m.map.cell_area).unwrap(),
        place: (MAP_COLUMNS * w.row + column) as u32,
        people: w.people,
        cells: w.cells,
    }
}

// The footprint on the map, or its refusal. In place of each call no answer is copied from Result to struct.
#[inline(always)]
pub fn footprint_on_map(map: GroundMap, marks: &[u64]) -> Result<MarkedCells, Refusal>
    ensures { footprint_answer result ≡ footprint_of (map_of map.entry) marks.now }
{
    map.check(marks)?;
    let marked = MarkedMap { map, marks };
    Ok(marked_cells(marked, marked.walk()))
}
