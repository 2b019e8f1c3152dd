// Two steps side by side, in the lanes of a vector, so that the processor works on both at once.
ghost use Rattle.std.specs.Prelude.{◌≡◌, [], ◌∷◌, ◌&&◌};
ghost use lib.Lanes.{zip2};
ghost use Rattle.fall.specs.Step.{after_rounds, speed_of, next_horizontal, next_downward};
ghost use Rattle.fall.specs.TwoSteps.{in_range, two_steps_of};
ghost use Rattle.fall.specs.PrivateRounds.{next_twice, Doubles};

use crate::{Body, Fall, fallen_to, first_guess, squares};
use std::simd::prelude::*;

// A round that keeps twice its guess, of twice the sum, so that the next division needn't wait for a halving.
fn next_twice(sum: f64x2, guess: f64x2) -> f64x2
    ensures { result ≡ zip2 next_twice sum guess }
{
    guess * f64x2::splat(0.5) + sum / guess
}

// Whether doubling and halving are exact in all six rounds.
fn in_range(sum: (f64, f64), first: (f64, f64)) -> bool
    ensures { result ≡ (in_range sum.0 first.0 && in_range sum.1 first.1) }
{
    let sum = f64x2::from_array([sum.0, sum.1]);
    let first = f64x2::from_array([first.0, first.1]);
    let positive = f64x2::splat(0.0).simd_lt(sum);
    let bounded = sum.simd_lt(f64x2::splat(1_000_000_000.0));
    let large = f64x2::splat(0.001).simd_lt(first);
    (positive & bounded & large).all()
}

// Six rounds of two sums. None is left out, since each lane waits for the other.
fn six_rounds(sum: (f64, f64), first: (f64, f64)) -> (f64, f64)
    requires { Doubles sum.0 first.0 × Doubles sum.1 first.1 }
    ensures { (result.0 ≡ after_rounds 6 sum.0 first.0) × (result.1 ≡ after_rounds 6 sum.1 first.1) }
{
    let sum = f64x2::from_array([sum.0, sum.1]);
    let first = f64x2::from_array([first.0, first.1]);
    let double = sum + sum;
    let two = next_twice(double, first + sum / first);
    let three = next_twice(double, two);
    let four = next_twice(double, three);
    let five = next_twice(double, four);
    let six = (next_twice(double, five) * f64x2::splat(0.5)).to_array();
    (six[0], six[1])
}

// The next speeds, horizontal and downward, of two states and their speeds.
fn next_speeds(b: Body, s: Fall, t: Fall, speed: (f64, f64)) -> (f64x2, f64x2)
    requires { (speed.0 ≡ speed_of s) × (speed.1 ≡ speed_of t) }
    ensures { (result.0 ≡ next_horizontal b s ∷ next_horizontal b t ∷ []) × (result.1 ≡ next_downward b s ∷ next_downward b t ∷ []) }
{
    let horizontal = f64x2::from_array([s.horizontal, t.horizontal]);
    let downward = f64x2::from_array([s.downward, t.downward]);
    let drag = f64x2::splat(b.drag_factor) * f64x2::from_array([speed.0, speed.1]);
    let mass = f64x2::splat(b.mass);
    let time_step = f64x2::splat(0.01);
    let next_horizontal = horizontal - drag * horizontal / mass * time_step;
    let next_downward = downward + (f64x2::splat(9.81) - drag * downward / mass) * time_step;
    (next_horizontal, next_downward)
}

// The state after a step from s, and whether it has the speeds of t, and a step from t those of u. Nothing where rounds can't keep twice
// their guess.
pub fn two_steps(b: Body, s: Fall, t: Fall, u: Fall) -> Option<(Fall, bool)>
    ensures { result ≡ two_steps_of b s t u }
{
    let sum = (squares(s), squares(t));
    let first = (first_guess(s), first_guess(t));
    if !in_range(sum, first) {
        return None;
    }
    let (horizontal, downward) = next_speeds(b, s, t, six_rounds(sum, first));
    let same_horizontal = horizontal.simd_eq(f64x2::from_array([t.horizontal, u.horizontal]));
    let same_downward = downward.simd_eq(f64x2::from_array([t.downward, u.downward]));
    let first_downward = downward.to_array()[0];
    let first = Fall {
        horizontal: horizontal.to_array()[0],
        downward: first_downward,
        fallen: fallen_to(s, first_downward),
    };
    Some((first, (same_horizontal & same_downward).all()))
}
