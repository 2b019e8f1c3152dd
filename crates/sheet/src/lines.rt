// Lines 1 to 6 of the sheet. `a` is document 01's a, the full width: the dimension and a person's width.
ghost use Rattle.std.specs.Prelude.{◌≡◌, cond, ◌+◌, ◌^◌, ◌≤◌, ◌<◌};
ghost use Rattle.sheet.specs.Ranges.{dimension_max, speed_max};
ghost use Rattle.columns.specs.Bracket.{rounded_outward};
ghost use Rattle.sheet.specs.PrivateBounds.{a_max, glide_max, slide_max, total_max, AtMost};
ghost use Rattle.sheet.specs.Lines.{full_width, glide_of, run_of, saving_of, slide_of, total_at, total_of, formula_of, area_of, tenths};
ghost use Rattle.sheet.specs.PrivateAreaTenths.{total_taken};

use crate::{Formula, PERSON_WIDTH};
use columns::Bracket;

// From the first dimension up the whole area formula is taken, from the second six tenths of it; in mm.
const WHOLE_FROM: u64 = 8_000;

const SIX_TENTHS_FROM: u64 = 1_000;

pub const GLIDE: Bracket = Bracket {
    low: 2_570_666,
    high: 2_570_667,
};

// The run is the square of the speed times this rate, over the scale.
pub const RUN_RATE: Bracket = Bracket {
    low: 1_926_617_433,
    high: 1_926_617_434,
};

pub const RUN_SCALE: u64 = 1_000_000_000;

// The low saving is this over the mass, rounded down; the high one is one more than this, over the mass, rounded up.
pub const SAVING_TIMES_MASS: u64 = 39_415_562_351;

// The square of a times this is the circle's part of T.
pub const CIRCLE_RATE: u64 = 785;

// A tenth of a total over 100,000 is the total over this.
pub const TENTHS_SCALE: u64 = 1_000_000;

// A numerator's two ends over one denominator, the low one rounded down and the high one up.
fn rounded(low: u64, high: u64, denominator: u64) -> Bracket
    requires { (0 < denominator) × (high + denominator < 2 ^ 64) }
    ensures { result ≡ rounded_outward low high denominator }
{
    let down = low / denominator;
    let up = (high + (denominator - 1)) / denominator;
    Bracket {
        low: down,
        high: up,
    }
}

pub(crate) fn run(speed: u64) -> Bracket
    requires { speed ≤ speed_max }
    ensures { result ≡ run_of speed }
{
    let low = speed * speed * RUN_RATE.low;
    let high = speed * speed * RUN_RATE.high;
    rounded(low, high, RUN_SCALE)
}

pub(crate) fn saving(mass: u64) -> Bracket
    requires { 0 < mass }
    ensures { result ≡ saving_of mass }
{
    // one division for both ends: a number that is one more, rounded up, is one more than the quotient
    let low = SAVING_TIMES_MASS / mass;
    Bracket { low, high: low + 1 }
}

// The low slide takes the high saving, and the high slide the low one, so that the exact slide lies between.
pub(crate) fn slide(run: Bracket, saving: Bracket) -> Bracket
    ensures { result ≡ slide_of run saving }
{
    let low = run.low.saturating_sub(saving.high);
    let high = run.high.saturating_sub(saving.low);
    Bracket { low, high }
}

// T at one end of the lines.
fn total_at(a: u64, glide: u64, slide: u64) -> u64
    requires { (a ≤ a_max) × (glide ≤ glide_max) × (slide ≤ slide_max) }
    ensures { result ≡ total_at a glide slide }
{
    a * (glide + slide + CIRCLE_RATE * a)
}

pub(crate) fn total(a: u64, slide: Bracket) -> Bracket
    requires { (a ≤ a_max) × AtMost slide slide_max }
    ensures { result ≡ total_of a glide_of slide }
{
    let low = total_at(a, GLIDE.low, slide.low);
    let high = total_at(a, GLIDE.high, slide.high);
    Bracket { low, high }
}

// The formulas are compared and not matched: comparisons become conditional moves, where a match branches and takes a sheet from 23.5
// to 23.9 ns.
impl Formula {
    pub fn of(dimension: u64) -> Formula
        ensures { result ≡ formula_of dimension }
    {
        if dimension >= WHOLE_FROM {
            Formula::Whole
        } else if dimension >= SIX_TENTHS_FROM {
            Formula::SixTenths
        } else {
            Formula::GlideOnly
        }
    }

    // How many tenths of a total over 100,000 the area is.
    pub fn tenths(self) -> u64
        ensures { result ≡ tenths self }
    {
        if self == Formula::Whole {
            10
        } else if self == Formula::SixTenths {
            6
        } else {
            5
        }
    }

    // The total that they are of. With the glide in the slide's place it is the numerator without slide, 2 × a × glide + 785 × a × a.
    fn total_taken(self, dimension: u64, line5: Bracket) -> Bracket
        requires { (dimension ≤ dimension_max) × AtMost line5 total_max }
        ensures value { result ≡ total_taken self (full_width dimension) glide_of line5 }
        ensures at_most { AtMost result total_max }
    {
        if self == Formula::GlideOnly {
            return total(dimension + PERSON_WIDTH, GLIDE);
        }
        line5
    }
}

// The three formulas as one, so that they share two divisions and the dimension chooses numbers, not code.
pub(crate) fn area(dimension: u64, line5: Bracket) -> Bracket
    requires { (dimension ≤ dimension_max) × AtMost line5 total_max }
    ensures { result ≡ area_of (formula_of dimension) (full_width dimension) glide_of line5 }
{
    let formula = Formula::of(dimension);
    let tenths = formula.tenths();
    let taken = formula.total_taken(dimension, line5);
    rounded(tenths * taken.low, tenths * taken.high, TENTHS_SCALE)
}
