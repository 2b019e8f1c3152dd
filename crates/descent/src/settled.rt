// The rest of a fall whose speeds no longer change.
ghost use Rattle.std.specs.Prelude.{◌≡◌, ◌-◌, ◌≤◌};
ghost use Rattle.descent.specs.Descent.{descent_answer, fall_from};
ghost use Rattle.descent.specs.PrivateSettled.{Settled};

use crate::{Course, Landing, landed_after};
use fall::{Fall, fallen_to};
use refusal::Refusal;

impl Course {
    // A step left both speeds as they were, and each later one does too: the distance alone grows.
    pub fn settled_fall(self, from: Fall, steps: u32) -> Result<Landing, Refusal>
        requires { (steps ≤ self.budget) × Settled self.body from }
        ensures { descent_answer result ≡ fall_from self.body self.height (self.budget - steps) steps from }
    {
        let mut state = from;
        for taken in steps..self.budget {
            state.fallen = fallen_to(state, state.downward);
            if state.fallen >= self.height {
                return Ok(landed_after(taken + 1, state));
            }
        }
        Err(Refusal::BudgetSpent)
    }
}
