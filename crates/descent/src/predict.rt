// Steps that were predicted and then confirmed. A step is one long chain of divisions, and the next one would wait for its end. Where a
// cheap formula has guessed the next two states to the last bit, which the exact steps confirm, the fall goes on from the guess while the
// processor still works on them, on both at once. A wrong guess costs time and nothing else: no speed is promised of it.
ghost use Rattle.std.specs.Prelude.{◌≡◌, true, ◌≤◌};
ghost use Rattle.std.specs.Float.Ieee.{lt};
ghost use Rattle.fall.specs.Numbers.{whole};
ghost use Rattle.descent.specs.PrivatePredicted.{Predicted, in_flight, SameFall};

use crate::Course;
use fall::{Fall, fallen_to, squares, two_steps};

// The speeds of the last five states, the latest first, found or predicted.
#[derive(Clone, Copy)]
pub struct Speeds(pub f64, pub f64, pub f64, pub f64, pub f64);

// A state, the number of steps that made it, and the speeds of the states before it.
#[derive(Clone, Copy)]
pub struct Progress {
    pub state: Fall,
    pub steps: u32,
    pub speeds: Speeds,
}

impl Speeds {
    pub fn with_latest(self, latest: f64) -> Speeds {
        Speeds(latest, self.0, self.1, self.2, self.3)
    }
}

// The speed of a state: the polynomial through the last five, and one round from there.
fn predicted_speed(v: Speeds, s: Fall) -> f64 {
    let slope = v.1 - v.2;
    let guess = 5.0 * (v.0 - v.3 - (slope + slope)) + v.4;
    (guess + squares(s) / guess) * 0.5
}

// The next state, of a predicted speed; `slowing_factor` times that speed times another is what a step takes of the other.
fn predicted(slowing_factor: f64, s: Fall, speed: f64) -> Fall
    ensures { Predicted s result }
{
    let downward = s.downward + (0.0981 - speed * (slowing_factor * s.downward));
    Fall {
        horizontal: s.horizontal - speed * (slowing_factor * s.horizontal),
        downward,
        fallen: fallen_to(s, downward),
    }
}

impl Course {
    // Whether a state is in the air, falling faster than the one before. At terminal speed a prediction that is wrong by a bit is wrong at
    // every step.
    fn in_flight(self, before: Fall, s: Fall) -> bool
        ensures { result ≡ in_flight self.height before s }
    {
        ((0.0 < s.horizontal) & (before.downward < s.downward)) & !(s.fallen >= self.height)
    }

    // Steps on, two at a time as long as both are confirmed and in flight, and one where a prediction was wrong: what is left of the fall is
    // the same. Each turn takes a step or ends the loop, so it counts none by itself.
    fn confirmed_steps(self, from: Progress) -> Progress
        requires { (from.steps ≤ self.budget) × (lt (whole 0) from.state.downward ≡ true) }
        ensures { SameFall self from result }
    {
        let slowing_factor = self.body.drag_factor / self.body.mass * 0.01;
        let mut at = from;
        while 1 < self.budget - at.steps {
            let speed = predicted_speed(at.speeds, at.state);
            let one = predicted(slowing_factor, at.state, speed);
            let speeds = at.speeds.with_latest(speed);
            let next_speed = predicted_speed(speeds, one);
            let two = predicted(slowing_factor, one, next_speed);
            if !(self.in_flight(at.state, one) & self.in_flight(one, two)) {
                return at;
            }
            let Some((exact, both_lead)) = two_steps(self.body, at.state, one, two) else {
                return at;
            };
            if both_lead {
                at = Progress {
                    state: two,
                    steps: at.steps + 2,
                    speeds: speeds.with_latest(next_speed),
                };
            } else if self.in_flight(at.state, exact) {
                at = Progress {
                    state: exact,
                    steps: at.steps + 1,
                    speeds,
                };
            } else {
                return at;
            }
        }
        at
    }

    // The same from any progress. It begins where five speeds are known and the fall grows faster.
    pub fn steps_ahead(self, before: Fall, from: Progress) -> Progress
        requires { from.steps ≤ self.budget }
        ensures { SameFall self from result }
    {
        let falls_faster = (0.0 < from.state.downward) & (before.downward < from.state.downward);
        if (4 < from.steps) & (0.0 < from.state.horizontal) & falls_faster {
            self.confirmed_steps(from)
        } else {
            from
        }
    }
}
