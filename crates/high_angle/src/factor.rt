// The energy at terminal speed in whole joules, and the safety factor in thousandths.
ghost use Rattle.std.specs.Prelude.{◌≡◌, ◌≤◌, ◌<◌};
ghost use Rattle.sheet.specs.Ranges.{mass_max};
ghost use Rattle.high_angle.specs.SafetyFactor.{root_from, root_to};
ghost use Rattle.high_angle.specs.HighAngle.{joules_of, factor_of};
ghost use Rattle.high_angle.specs.PrivateBounds.{OneApart};

use crate::root::{guess, largest_at_most, smallest_at_least};
use columns::Bracket;

// Below the first number of joules the factor is 2.3, above the second it is 7.
const ROOT_FROM: u64 = 12_000;

const ROOT_TO: u64 = 3_125_000;

const FACTOR_BELOW: u64 = 2_300;

const FACTOR_ABOVE: u64 = 7_000;

// The factor's fifth power, in thousandths, for each joule.
const ROOT_SCALE: u64 = 5_378_240_000_000;

// One division for both ends: it leaves the remainder too.
pub(crate) fn joules(frontal: u64, mass: u64) -> Bracket
    requires { (0 < frontal) × (frontal ≤ 25000000) × (mass ≤ mass_max) }
    ensures { result ≡ joules_of frontal mass }
{
    let energy = mass * mass * 981;
    let divisor = 98 * frontal;
    let low = energy / divisor;
    if energy % divisor == 0 {
        return Bracket { low, high: low };
    }
    Bracket { low, high: low + 1 }
}

// The factors of joules that lie between the two numbers. The high one is sought from the low one, which is at most 2 below it.
fn roots(joules: Bracket) -> Bracket
    requires { OneApart joules × (root_from ≤ joules.low) × (joules.high ≤ root_to) }
    ensures { result ≡ factor_of joules }
{
    let start = guess(joules.low as u32);
    let root = largest_at_most(start, ROOT_SCALE * joules.low);
    let low = root.low;
    let high = smallest_at_least(root, ROOT_SCALE * joules.high);
    Bracket { low, high }
}

// Each end is chosen by its own joules. From 3,125,000 J on both factors are 7: the root is 7 there itself.
pub(crate) fn factor(joules: Bracket) -> Bracket
    requires { OneApart joules }
    ensures { result ≡ factor_of joules }
{
    if ROOT_TO <= joules.low {
        return Bracket {
            low: FACTOR_ABOVE,
            high: FACTOR_ABOVE,
        };
    }
    if ROOT_FROM <= joules.low {
        return roots(joules);
    }
    if joules.high < ROOT_FROM {
        return Bracket {
            low: FACTOR_BELOW,
            high: FACTOR_BELOW,
        };
    }
    // 12,000 J at the high end, whose root is above 2.301
    Bracket {
        low: FACTOR_BELOW,
        high: 2_302,
    }
}
