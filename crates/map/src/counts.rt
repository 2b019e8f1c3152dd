// The test of the head counts, map row by map row.
ghost use Rattle.std.specs.Prelude.{◌≡◌};
ghost use Rattle.refusal.specs.Numbers.{number_in};
ghost use Rattle.refusal.specs.Refusals.{first_refusal};
ghost use Rattle.map.specs.Refusals.{wrong_count, counts_tests};
ghost use Rattle.map.specs.PrivateCounts.{wrong_row};

use crate::{LARGEST_COUNT, MAP_CELLS, MAP_COLUMNS};
use refusal::Refusal;

// Whether any count of a map row is above its range: then the largest is. No count is compared with the range by itself.
fn wrong_row(counts: &[u32; MAP_COLUMNS]) -> bool
    ensures { result ≡ wrong_row counts.now }
{
    let mut most: u32 = 0;
    for count in counts {
        most = most.max(*count);
    }
    LARGEST_COUNT < most
}

// Whether any count, marked or not, is above its range. Each map row is lent as its own 64 counts.
pub(crate) fn wrong_count(counts: &[u32; MAP_CELLS]) -> bool
    ensures { result ≡ wrong_count counts.now }
{
    let (rows, _) = counts.as_chunks::<MAP_COLUMNS>();
    let mut any = false;
    for row in rows {
        any |= wrong_row(row);
    }
    any
}

// Refusals 5 and 7, of the counts alone.
pub fn check_counts(counts: &[u32]) -> Result<(), Refusal>
    ensures { number_in result ≡ first_refusal (counts_tests counts.now) }
{
    let Ok(counts) = <&[u32; MAP_CELLS]>::try_from(counts) else {
        return Err(Refusal::BufferLength);
    };
    if wrong_count(counts) {
        return Err(Refusal::HeadCount);
    }
    Ok(())
}
