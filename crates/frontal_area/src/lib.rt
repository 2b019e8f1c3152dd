// The frontal area of a multirotor, by straight lines between five points, and its refusal (document 02, item 2).
#![tactic(auto)]

ghost use Rattle.std.specs.Prelude.{◌≡◌};
ghost use Rattle.refusal.specs.Numbers.{number_in};
ghost use Rattle.refusal.specs.Refusals.{first_refusal};
ghost use Rattle.frontal_area.specs.FrontalArea.{frontal_area_of, multirotor_tests};

use refusal::Refusal;
use sheet::Aircraft;

// The dimensions of the first and the last point, in mm: the smallest and the largest that have a frontal area.
const FIRST_DIMENSION: u32 = 1_000;

const LAST_DIMENSION: u32 = 40_000;

// Refusals 1 to 3 of the aircraft, then 16, a dimension that has no frontal area. A dimension that has one is within its range, so that
// the compiler tests it once.
#[inline(always)]
pub fn check_multirotor(aircraft: Aircraft) -> Result<(), Refusal>
    ensures { number_in result ≡ first_refusal (multirotor_tests aircraft.dimension aircraft.mass aircraft.speed) }
{
    if (aircraft.dimension < FIRST_DIMENSION) | (LAST_DIMENSION < aircraft.dimension) {
        aircraft.check_ranges()?;
        return Err(Refusal::NoFrontalArea);
    }
    aircraft.check_ranges()
}

// The frontal area in square millimetres, of a dimension in mm. The lines rise by 200, 400, 2,500 / 3 and 625 for each mm; the third
// alone is rounded. Before the first point and past the last it is that point's.
pub fn frontal_area(dimension: u64) -> u64
    ensures { result ≡ frontal_area_of dimension }
{
    if dimension < 1_000 {
        return 100_000;
    }
    if dimension <= 3_000 {
        return 100_000 + 200 * (dimension - 1_000);
    }
    if dimension <= 8_000 {
        return 500_000 + 400 * (dimension - 3_000);
    }
    if dimension <= 20_000 {
        return 2_500_000 + 2_500 * (dimension - 8_000) / 3;
    }
    if dimension <= 40_000 {
        return 12_500_000 + 625 * (dimension - 20_000);
    }
    25_000_000
}
