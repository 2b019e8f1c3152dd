// The test of a footprint's marks.
ghost use Rattle.std.specs.Prelude.{◌≡◌};
ghost use Rattle.map.specs.Refusals.{no_mark};

use crate::MAP_ROWS;

// Whether no bit is set in any row.
pub(crate) fn no_mark(marks: &[u64; MAP_ROWS]) -> bool
    ensures { result ≡ no_mark marks.now }
{
    let mut all: u64 = 0;
    for row in marks {
        all |= *row;
    }
    all == 0
}
