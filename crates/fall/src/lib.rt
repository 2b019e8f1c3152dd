// The state of a fall and one step of it, 0.01 s (document 02, item 4). Every operation is in the order of the item's words.
#![tactic(auto)]

ghost use Rattle.std.specs.Prelude.{◌≡◌, true, ◌&&◌};
ghost use Rattle.std.specs.Float.Ieee.{eq, lt};
ghost use Rattle.fall.specs.Numbers.{whole};
ghost use Rattle.fall.specs.Step.{squares, first_guess, next_guess, after_rounds, speed_of, fallen_to, next_state};

mod lanes;

pub use lanes::two_steps;

// The state: horizontal and downward speed in m/s, distance fallen in m.
#[repr(C)]
#[derive(Clone, Copy, Default)]
pub struct Fall {
    pub horizontal: f64,
    pub downward: f64,
    pub fallen: f64,
}

// The falling aircraft: 0.5 × air density × frontal area × drag coefficient, which times the speed is the drag per speed; and the mass in
// kg.
#[derive(Clone, Copy)]
pub struct Body {
    pub drag_factor: f64,
    pub mass: f64,
}

fn next_guess(sum: f64, guess: f64) -> f64
    ensures { result ≡ next_guess sum guess }
{
    (guess + sum / guess) * 0.5
}

// Six rounds. One that returns its guess would return it again, so that the rest is left out.
fn six_rounds(sum: f64, first: f64) -> f64
    ensures { result ≡ after_rounds 6 sum first }
{
    let mut guess = next_guess(sum, first);
    for _round in 1..6_u32 {
        let next = next_guess(sum, guess);
        if next == guess {
            return next;
        }
        guess = next;
    }
    guess
}

pub fn squares(s: Fall) -> f64
    ensures { result ≡ squares s }
{
    s.horizontal * s.horizontal + s.downward * s.downward
}

fn first_guess(s: Fall) -> f64
    ensures { result ≡ first_guess s }
{
    s.horizontal + s.downward
}

// A speed that was found, and what it was found from: another state that has both has the speed too.
#[derive(Clone, Copy)]
pub struct FoundSpeed {
    pub squares: f64,
    pub first_guess: f64,
    pub speed: f64,
    ghost is_found: { speed ≡ after_rounds 6 squares first_guess },
}

// Above zero two f64 that compare as equal are the same; 0 and -0 compare as equal and aren't.
pub fn same_above_zero(x: f64, y: f64) -> bool
    ensures value { result ≡ (eq x y && lt (whole 0) y) }
    ensures same { result ≡ true → x ≡ y }
{
    (x == y) & (0.0 < y)
}

// Found anew, unless it was the last one found: near terminal speed the squares of the horizontal speed no longer count.
fn found_speed(s: Fall, last: Option<FoundSpeed>) -> FoundSpeed
    ensures { (result.squares ≡ squares s) × (result.first_guess ≡ first_guess s) }
{
    let squares = squares(s);
    let first_guess = first_guess(s);
    if let Some(found) = last
        && same_above_zero(squares, found.squares)
        && same_above_zero(first_guess, found.first_guess)
    {
        return found;
    }
    FoundSpeed {
        squares,
        first_guess,
        speed: six_rounds(squares, first_guess),
    }
}

impl FoundSpeed {
    fn speed_of(self, s: Fall) -> f64
        requires { (self.squares ≡ squares s) × (self.first_guess ≡ first_guess s) }
        ensures { result ≡ speed_of s }
    {
        if (s.horizontal == 0.0) & (s.downward == 0.0) {
            0.0
        } else {
            self.speed
        }
    }
}

// The distance fallen at the end of a step that makes this downward speed.
pub fn fallen_to(s: Fall, downward: f64) -> f64
    ensures { result ≡ fallen_to s downward }
{
    s.fallen + 0.5 * (s.downward + downward) * 0.01
}

// The state after one step, of a state and its speed.
fn moved(b: Body, s: Fall, speed: f64) -> Fall
    requires { speed ≡ speed_of s }
    ensures { result ≡ next_state b s }
{
    let drag = b.drag_factor * speed;
    let forward_slowing = drag * s.horizontal / b.mass;
    let downward_slowing = drag * s.downward / b.mass;
    let downward = s.downward + (9.81 - downward_slowing) * 0.01;
    Fall {
        horizontal: s.horizontal - forward_slowing * 0.01,
        downward,
        fallen: fallen_to(s, downward),
    }
}

// The state after one step, and the speed that was found for it. A speed that was found before may serve again.
pub fn step(b: Body, s: Fall, last: Option<FoundSpeed>) -> (Fall, FoundSpeed)
    ensures { (result.0 ≡ next_state b s) × (result.1.squares ≡ squares s) × (result.1.first_guess ≡ first_guess s) }
{
    let found = found_speed(s, last);
    (moved(b, s, found.speed_of(s)), found)
}
