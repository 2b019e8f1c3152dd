// The descent of a multirotor from its operating height, stepped until it reaches the ground (document 02, item 4).
#![tactic(auto)]

ghost use Rattle.std.specs.Prelude.{◌≡◌};
ghost use Rattle.descent.specs.Descent.{body_of, first_state, landed, landed_answer, descent_answer, fall_from, descent_of};

mod predict;
mod settled;

use crate::predict::{Progress, Speeds};
use fall::{Body, Fall, same_above_zero, step};
use frontal_area::{check_multirotor, frontal_area};
use refusal::Refusal;
use sheet::Aircraft;

// Where and how a fall ends: whether the angle at the ground is above 60 degrees, the number of steps, and the end state.
#[derive(Clone, Copy)]
pub struct Landing {
    pub above_60: bool,
    pub steps: u32,
    pub end: Fall,
}

// The answer for C, by the words of document 02: a refusal number, 0 for none; then the landing, the verdict as 1 or 0. All zeros where it is refused.
#[repr(C)]
#[derive(Clone, Copy, Default)]
pub struct Descent {
    pub refusal: u8,
    pub above_60: u8,
    pub steps: u32,
    pub end: Fall,
}

impl From<Result<Landing, Refusal>> for Descent {
    ghost from_gives = { λ r a. a ≡ descent_answer r };

    fn from(answer: Result<Landing, Refusal>) -> Descent {
        match answer {
            Ok(landing) => Descent {
                refusal: 0,
                above_60: landing.above_60.into(),
                steps: landing.steps,
                end: landing.end,
            },
            Err(refusal) => Descent {
                refusal: refusal.into(),
                ..Descent::default()
            },
        }
    }
}

// in cm
const HEIGHT_MAX: u32 = 50_000;

// in steps
const BUDGET_MAX: u32 = 20_000;

fn landed_after(steps: u32, end: Fall) -> Landing
    ensures { landed_answer result ≡ landed steps end }
{
    let above_60 = end.downward * end.downward > 3.0 * (end.horizontal * end.horizontal);
    Landing {
        above_60,
        steps,
        end,
    }
}

// A fall that is to be made: the height is in m, the budget in steps.
#[derive(Clone, Copy)]
struct Course {
    body: Body,
    height: f64,
    budget: u32,
}

impl Course {
    // The fall from a first state. Here each step is taken that a prediction didn't foresee, and every one that ends the fall. A turn
    // takes a varying number of steps, so the loop counts none.
    fn fall_from(self, first: Fall) -> Result<Landing, Refusal>
        ensures { descent_answer result ≡ fall_from self.body self.height self.budget 0 first }
    {
        let mut at = Progress {
            state: first,
            steps: 0,
            speeds: Speeds(0.0, 0.0, 0.0, 0.0, 0.0),
        };
        let mut last = None;
        while at.steps < self.budget {
            let (state, found) = step(self.body, at.state, last);
            last = Some(found);
            let steps = at.steps + 1;
            if (state.horizontal < 0.0) | (state.downward < 0.0) {
                return Err(Refusal::NegativeSpeed);
            }
            if state.fallen >= self.height {
                return Ok(landed_after(steps, state));
            }
            if same_above_zero(at.state.horizontal, state.horizontal)
                & same_above_zero(at.state.downward, state.downward)
            {
                return self.settled_fall(state, steps);
            }
            let speeds = at.speeds.with_latest(found.speed);
            let next = Progress {
                state,
                steps,
                speeds,
            };
            at = self.steps_ahead(at.state, next);
        }
        Err(Refusal::BudgetSpent)
    }
}

fn body(dimension: u32, mass: u32) -> Body
    ensures { result ≡ body_of dimension mass }
{
    let area = frontal_area(dimension as u64) as f64 / 1_000_000.0;
    Body {
        drag_factor: 0.5 * 1.225 * area * 0.8,
        mass: mass as f64 / 1_000.0,
    }
}

fn first_state(speed: u32) -> Fall
    ensures { result ≡ first_state speed }
{
    Fall {
        horizontal: speed as f64 / 100.0,
        downward: 0.0,
        fallen: 0.0,
    }
}

// The descent of a multirotor: height in cm, and the largest number of steps. Refusals: 1 dimension, 2 mass, 3 speed, 16 no frontal
// area, 17 height or budget; 19 a negative speed, 18 the budget spent.
pub fn descent_of(aircraft: Aircraft, height: u32, budget: u32) -> Result<Landing, Refusal>
    ensures { descent_answer result ≡ descent_of aircraft.dimension aircraft.mass aircraft.speed height budget }
{
    check_multirotor(aircraft)?;
    if ((height < 1) | (HEIGHT_MAX < height)) | ((budget < 1) | (BUDGET_MAX < budget)) {
        return Err(Refusal::HeightOrBudget);
    }
    let course = Course {
        body: body(aircraft.dimension, aircraft.mass),
        height: height as f64 / 100.0,
        budget,
    };
    course.fall_from(first_state(aircraft.speed))
}
