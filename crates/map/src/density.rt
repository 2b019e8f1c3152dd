// The table row of a cell, by its people per square kilometre.
ghost use Rattle.std.specs.Prelude.{◌≡◌, position};
ghost use Rattle.map.specs.TableRow.{below_density, table_row, table_row_or_zero, row_unless_zero};

use crate::{LARGEST_AREA, LARGEST_COUNT, LEAST_AREA};

// The square metres of a square kilometre.
const SQUARE_KILOMETRE: u64 = 1000000;

// The people per square kilometre below which a cell is of row 2, 3, 4, 5 and 6.
const DENSITIES: [u32; 5] = [5, 50, 500, 5000, 50000];

// Whether a cell has fewer people per square kilometre than `density`. Nothing is divided.
fn below_density(people: u32, area: u32, density: u32) -> bool
    ensures { result ≡ below_density people area density }
{
    people as u64 * SQUARE_KILOMETRE < density as u64 * area as u64
}

// The first of the densities that a cell is below.
fn first_above(people: u32, area: u32) -> Option<usize>
    ensures { result ≡ position (below_density people area) DENSITIES }
{
    DENSITIES
        .iter()
        .position(|density| below_density(people, area, *density))
}

// The table row of a cell: 2 for the first of the densities, 3 for the second, and so on.
fn row_of(people: u32, area: u32) -> u8
    ensures { result ≡ table_row people area }
{
    match first_above(people, area) {
        Some(i) => 2 + i as u8,
        None => 7,
    }
}

// The table row of a cell, none where the people or the area is out of range.
pub fn table_row(people: u32, area: u32) -> Option<u8>
    ensures { result ≡ row_unless_zero (table_row_or_zero people area) }
{
    if (LARGEST_COUNT < people) | ((area < LEAST_AREA) | (LARGEST_AREA < area)) {
        return None;
    }
    Some(row_of(people, area))
}
