// The sheet's lines the other way round: the greatest slide within an area limit, and the greatest speed and mass within a slide.
ghost use Rattle.std.specs.Prelude.{◌≡◌, ◌≤◌, ◌<◌};
ghost use Rattle.columns.specs.Column.{last_limit};
ghost use Rattle.sheet.specs.Ranges.{dimension_max, speed_max};
ghost use Rattle.sheet.specs.PrivateBounds.{a_max, slide_max};
ghost use Rattle.trade_off.specs.PrivateSolved.{SlideWithin, SpeedWithin, MassWithin, sum};

use crate::root::whole_root;
use sheet::{
    CIRCLE_RATE, Formula, GLIDE, PERSON_WIDTH, RUN_RATE, RUN_SCALE, SAVING_TIMES_MASS, Sheet,
    TENTHS_SCALE,
};

// The high run of the highest speed, in micrometres: no slide is longer. It is written out, since a constant calls no function.
const LONGEST_RUN: u64 = (SPEED_MAX * SPEED_MAX * RUN_RATE.high + (RUN_SCALE - 1)) / RUN_SCALE;

const SPEED_MAX: u64 = Sheet::SPEED_MAX as u64;

// Glide, slide and 785 × a together, where the slide is 0; a times this is the total. A formula without slide has the glide in its place.
// That no area without slide is too large for a column, nothing here rests on.
fn sum_without_slide(formula: Formula, a: u64) -> u64
    requires { a ≤ a_max }
    ensures { result ≡ sum formula a 0 }
{
    if formula == Formula::GlideOnly {
        return GLIDE.high + GLIDE.high + CIRCLE_RATE * a;
    }
    GLIDE.high + CIRCLE_RATE * a
}

// The greatest high slide with which the high area is within the limit; none where it isn't even without slide.
pub(crate) fn greatest_slide(dimension: u64, limit: u64) -> Option<u64>
    requires { (dimension ≤ dimension_max) × (limit ≤ last_limit) }
    ensures { SlideWithin dimension limit result }
{
    let formula = Formula::of(dimension);
    let a = dimension + PERSON_WIDTH;
    // the limit is a whole number, so an area within it is within it rounded up too
    let sum = limit * TENTHS_SCALE / (formula.tenths() * a);
    let without_slide = sum_without_slide(formula, a);
    if sum < without_slide {
        return None;
    }
    if formula == Formula::GlideOnly {
        // any slide will do
        return Some(LONGEST_RUN);
    }
    Some(LONGEST_RUN.min(sum - without_slide))
}

// The greatest speed at which the high slide is at most this: the run is at most the slide and the low saving together.
pub(crate) fn speed_within(slide: u64, mass: u64) -> u32
    requires { (slide ≤ slide_max) × (0 < mass) }
    ensures { SpeedWithin slide mass result }
{
    // at most the longest, so that the root is at most the highest speed
    let run = LONGEST_RUN.min(slide + SAVING_TIMES_MASS / mass);
    whole_root(run * RUN_SCALE / RUN_RATE.high) as u32
}

// The greatest mass with which the high slide is at most this: the low saving is at least what the run is more than the slide.
pub(crate) fn mass_within(slide: u64, speed: u64) -> u32
    requires { speed ≤ speed_max }
    ensures { MassWithin slide speed result }
{
    let run = (speed * speed * RUN_RATE.high + (RUN_SCALE - 1)) / RUN_SCALE;
    let saving = run.saturating_sub(slide);
    // where none is needed, any mass has enough
    (SAVING_TIMES_MASS / saving.max(1)).min(Sheet::MASS_MAX as u64) as u32
}
