// The high impact angle area of a multirotor (document 02, item 2).
#![tactic(auto)]

ghost use Rattle.std.specs.Prelude.{◌≡◌, ◌≤◌};
ghost use Rattle.sheet.specs.Ranges.{mass_max};
ghost use Rattle.frontal_area.specs.FrontalArea.{last_dimension};
ghost use Rattle.high_angle.specs.SafetyFactor.{factor_above};
ghost use Rattle.high_angle.specs.HighAngle.{area_of, accepted_answer, high_angle_answer, accepted_high_angle, high_angle_of};
ghost use Rattle.high_angle.specs.PrivateBounds.{width_max};

mod factor;
mod root;

use crate::factor::{factor, joules};
use columns::{Bracket, column_and_flag};
use frontal_area::{check_multirotor, frontal_area};
use refusal::Refusal;
use sheet::{Aircraft, PERSON_WIDTH};

// The answer for C, by the words of document 02: a refusal number, 0 for none. Then column and flag as on the sheet; the frontal area in square millimetres;
// the energy at terminal speed in joules, the safety factor in thousandths and the area in square centimetres, each low and high. All
// zeros where it is refused.
#[repr(C)]
#[derive(Clone, Copy)]
pub struct HighAngle {
    pub refusal: u8,
    pub column: u8,
    pub flag: u8,
    pub frontal_area: u64,
    pub joules: Bracket,
    pub factor: Bracket,
    pub area: Bracket,
}

// The same of a multirotor that isn't refused.
#[derive(Clone, Copy, Default)]
pub struct HighAngleArea {
    pub column: u8,
    pub flag: u8,
    pub frontal_area: u64,
    pub joules: Bracket,
    pub factor: Bracket,
    pub area: Bracket,
}

impl From<Result<HighAngleArea, Refusal>> for HighAngle {
    ghost from_gives = { λ r a. a ≡ high_angle_answer r };

    // in place, and so the two below, as the sheet's are
    #[inline(always)]
    fn from(answer: Result<HighAngleArea, Refusal>) -> HighAngle {
        let (refusal, values) = match answer {
            Ok(values) => (0, values),
            Err(refusal) => (u8::from(refusal), HighAngleArea::default()),
        };
        HighAngle {
            refusal,
            column: values.column,
            flag: values.flag,
            frontal_area: values.frontal_area,
            joules: values.joules,
            factor: values.factor,
            area: values.area,
        }
    }
}

// The factor × 3.14 × D², of the full width a, twice D.
fn area(a: u64, factor: Bracket) -> Bracket
    requires { (a ≤ width_max) × (factor.low ≤ factor_above) × (factor.high ≤ factor_above) }
    ensures { result ≡ area_of a factor }
{
    let square = 157 * (a * a);
    let low = factor.low * square / 20_000_000;
    let high = (factor.high * square + 19_999_999) / 20_000_000;
    Bracket { low, high }
}

// The values of a multirotor that isn't refused.
#[inline(always)]
fn accepted(dimension: u64, mass: u64) -> HighAngleArea
    requires { (dimension ≤ last_dimension) × (mass ≤ mass_max) }
    ensures { accepted_answer result ≡ accepted_high_angle dimension mass }
{
    let frontal_area = frontal_area(dimension);
    let joules = joules(frontal_area, mass);
    let factor = factor(joules);
    let area = area(dimension + PERSON_WIDTH, factor);
    // no high angle area is above the last limit: the default never comes, and unwrap leaves a branch, 0.94 of the tuned Rust's speed
    // where this has 0.97
    let found = column_and_flag(area).unwrap_or_default();
    HighAngleArea {
        frontal_area,
        joules,
        factor,
        area,
        column: found.column,
        flag: found.flag,
    }
}

// The high impact angle area of a multirotor, whose speed is judged for its range alone. Refusals: 1 dimension, 2 mass, 3 speed, 16 no
// frontal area.
#[inline(always)]
pub fn high_angle_of(aircraft: Aircraft) -> Result<HighAngleArea, Refusal>
    ensures { high_angle_answer result ≡ high_angle_of aircraft.dimension aircraft.mass aircraft.speed }
{
    check_multirotor(aircraft)?;
    Ok(accepted(aircraft.dimension as u64, aircraft.mass as u64))
}
