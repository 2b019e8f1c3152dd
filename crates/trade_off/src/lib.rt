// The greatest speed and the greatest mass for a column (document 02, item 5).
#![tactic(auto)]

ghost use Rattle.std.specs.Prelude.{◌≡◌};
ghost use Rattle.refusal.specs.Numbers.{number_in};
ghost use Rattle.refusal.specs.Refusals.{first_refusal};
ghost use Rattle.trade_off.specs.PrivateGiven.{given_tests, LimitGiven};
ghost use Rattle.trade_off.specs.TradeOff.{greatest_speed_answer, greatest_mass_answer, greatest_speed_of, greatest_mass_of};

mod root;
mod solved;

use crate::solved::{greatest_slide, mass_within, speed_within};
use columns::limit_of;
use refusal::Refusal;
use sheet::{Aircraft, Sheet};

// The answers for C, by the words of document 02: a refusal number, 0 for none, and the speed in cm/s, or the mass in g, 0 where it is
// refused.
#[repr(C)]
#[derive(Clone, Copy)]
pub struct GreatestSpeed {
    pub refusal: u8,
    pub speed: u32,
}

#[repr(C)]
#[derive(Clone, Copy)]
pub struct GreatestMass {
    pub refusal: u8,
    pub mass: u32,
}

impl From<Result<u32, Refusal>> for GreatestSpeed {
    ghost from_gives = { λ r a. a ≡ greatest_speed_answer r };

    fn from(answer: Result<u32, Refusal>) -> GreatestSpeed {
        match answer {
            Ok(speed) => GreatestSpeed { refusal: 0, speed },
            Err(refusal) => GreatestSpeed {
                refusal: u8::from(refusal),
                speed: 0,
            },
        }
    }
}

impl From<Result<u32, Refusal>> for GreatestMass {
    ghost from_gives = { λ r a. a ≡ greatest_mass_answer r };

    fn from(answer: Result<u32, Refusal>) -> GreatestMass {
        match answer {
            Ok(mass) => GreatestMass { refusal: 0, mass },
            Err(refusal) => GreatestMass {
                refusal: u8::from(refusal),
                mass: 0,
            },
        }
    }
}

// The area limit of the wanted column, or the refusal of what is given: 1, 2, 3 the aircraft's ranges, 20 the column.
#[inline(always)]
fn given_limit(aircraft: Aircraft, column: u8) -> Result<u64, Refusal>
    ensures refusal { number_in result ≡ first_refusal (given_tests aircraft.dimension aircraft.mass aircraft.speed column) }
    ensures limit { LimitGiven column result }
{
    aircraft.check_ranges()?;
    limit_of(column).ok_or(Refusal::WantedColumn)
}

// The greatest speed with which an aircraft of this dimension and mass keeps to a column, or its refusal: 1 dimension, 2 mass, 20 the
// column, 21 no speed does.
pub fn greatest_speed(dimension: u32, mass: u32, column: u8) -> Result<u32, Refusal>
    ensures { greatest_speed_answer result ≡ greatest_speed_of dimension mass column }
{
    // at rest it is in the range of speeds, so that dimension and mass alone are judged
    let speed = 0;
    let aircraft = Aircraft {
        dimension,
        mass,
        speed,
    };
    let limit = given_limit(aircraft, column)?;
    let slide = greatest_slide(dimension as u64, limit).ok_or(Refusal::NoneForColumn)?;
    Ok(speed_within(slide, mass as u64))
}

// The greatest mass with which an aircraft of this dimension keeps to a column at this speed, or its refusal: 1 dimension, 3 speed, 20 the
// column, 21 no mass in range does.
pub fn greatest_mass(dimension: u32, speed: u32, column: u8) -> Result<u32, Refusal>
    ensures { greatest_mass_answer result ≡ greatest_mass_of dimension speed column }
{
    // at its lightest it is in the range of masses
    let mass = Sheet::MASS_MIN;
    let aircraft = Aircraft {
        dimension,
        mass,
        speed,
    };
    let limit = given_limit(aircraft, column)?;
    let slide = greatest_slide(dimension as u64, limit).ok_or(Refusal::NoneForColumn)?;
    let mass = mass_within(slide, speed as u64);
    let too_light = mass < Sheet::MASS_MIN;
    if too_light {
        return Err(Refusal::NoneForColumn);
    }
    Ok(mass)
}
