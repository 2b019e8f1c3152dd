// The column of the class table and the flag, from an area between two numbers (document 01, "The aircraft and its area"); the size
// column, from a dimension and a speed (document 02, item 1).
#![tactic(auto)]

ghost use Rattle.std.specs.Prelude.{◌≡◌};
ghost use Rattle.columns.specs.Column.{column_and_flag_of, column_found, limit_of_column};
ghost use Rattle.columns.specs.SizeColumn.{size_column_of, size_column_found};

// A number at most the exact one, and a number at least the exact one.
#[repr(C)]
#[derive(Clone, Copy, Default)]
pub struct Bracket {
    pub low: u64,
    pub high: u64,
}

// The area limits of the five columns, in square centimetres.
const LIMITS: [u64; 5] = [65_000, 650_000, 6_500_000, 65_000_000, 650_000_000];

pub const LAST_LIMIT: u64 = LIMITS[4];

// The largest dimension, in millimetres, and the largest speed, in centimetres a second, of a size column.
#[derive(Clone, Copy)]
struct SizePair {
    dimension: u32,
    speed: u32,
}

// The pairs of the five size columns.
const SIZE_PAIRS: [SizePair; 5] = [
    SizePair {
        dimension: 1_000,
        speed: 2_500,
    },
    SizePair {
        dimension: 3_000,
        speed: 3_500,
    },
    SizePair {
        dimension: 8_000,
        speed: 7_500,
    },
    SizePair {
        dimension: 20_000,
        speed: 12_000,
    },
    SizePair {
        dimension: 40_000,
        speed: 20_000,
    },
];

// The flag is C's number, 1 or 0: the sheet and the high angle take it over as it is.
#[derive(Clone, Copy, Default)]
pub struct ColumnAndFlag {
    pub column: u8,
    pub flag: u8,
}

// The first column whose limit is at least the high area, and whether the low area is at most the limit before it. Above the last
// limit there is no column. A search for the limit's place, and then for the limit before it, takes a sheet from 26.5 to 27.1 ns.
pub fn column_and_flag(area: Bracket) -> Option<ColumnAndFlag>
    ensures { result ≡ column_found (column_and_flag_of area) }
{
    // the limit before, and one; 0 before the first column, where no low area is flagged
    let mut flagged_below = 0;
    for (k, limit) in LIMITS.iter().enumerate() {
        if area.high <= *limit {
            let flag = (area.low < flagged_below) as u8;
            let column = k as u8 + 1;
            return Some(ColumnAndFlag { column, flag });
        }
        flagged_below = *limit + 1;
    }
    None
}

// The area limit of a column of the class table; none for a number that is no column.
pub fn limit_of(column: u8) -> Option<u64>
    ensures { result ≡ limit_of_column column }
{
    if (column < 1) | (LIMITS.len() < column as usize) {
        return None;
    }
    Some(LIMITS[column as usize - 1])
}

// The first size column whose dimension and speed are both at least the aircraft's. The pairs are walked from the last to the first,
// so that the first one large enough stays: conditional moves. A search from the first pair branches, and takes a sheet from 30 to
// 33 ns where no predictor learns the aircraft.
pub fn size_column(dimension: u32, speed: u32) -> Option<u8>
    ensures { result ≡ size_column_found (size_column_of dimension speed) }
{
    // 0 for none: a number is chosen with fewer instructions than an Option, 175 a sheet for 178
    let mut column = 0;
    for (k, pair) in SIZE_PAIRS.iter().enumerate().rev() {
        if (dimension <= pair.dimension) & (speed <= pair.speed) {
            column = k as u8 + 1;
        }
    }
    if column == 0 {
        return None;
    }
    Some(column)
}
