// Kinds 1 to 5: the drawn footprint, and the aircraft.
use crate::parts::RandomCase;
use crate::tables::{AREA_LIMITS, EDGES, Edge, FLAGGED};

pub(crate) fn drawn_footprint(mut case: RandomCase, _i: u64) -> RandomCase {
    case.rows = None;
    case
}

pub(crate) fn range_edges(plain: RandomCase, i: u64) -> RandomCase {
    let mut case = plain.calm().with_column(1);
    match EDGES[(i % 36) as usize] {
        Edge::Dimension(value) => case.dimension = value,
        Edge::Mass(value) => case.mass = value,
        Edge::Speed(value) => case.speed = value,
        Edge::CellArea(value) => case.cell_area = value,
    }
    case
}

pub(crate) fn flagged_plain(plain: RandomCase, i: u64) -> RandomCase {
    plain.with_aircraft(FLAGGED[(i % 48) as usize])
}

pub(crate) fn flagged_calm(plain: RandomCase, i: u64) -> RandomCase {
    flagged_plain(plain.calm(), i)
}

// A mass from 3 g less than the table's on, 1 g more after each sixteen cases.
pub(crate) fn area_limits(plain: RandomCase, i: u64) -> RandomCase {
    let (dimension, mass, speed) = AREA_LIMITS[(i % 16) as usize];
    let mut case = plain.calm().with_aircraft((dimension, mass, speed));
    case.mass = (u64::from(mass) + i / 16).saturating_sub(3);
    case
}
