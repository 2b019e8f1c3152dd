// The mitigation word.
ghost use Rattle.std.specs.Prelude.{◌≡◌, ◌+◌, ◌-◌, ◌≤◌, max};
ghost use Rattle.std.proofs.Math.IntN.{sub_ℕ};
ghost use Rattle.risk_class.specs.ClassTable.{class_at};
ghost use Rattle.risk_class.specs.Mitigation.{is_entry, final_answer, final_class_of};

use crate::class_table::{CLASSES, Column};
use crate::credits::Credits;
use refusal::Refusal;

// The highest final class that isn't refused.
const HIGHEST_FINAL: i8 = 7;

// The answer for C, by the words of document 01: a refusal number, 0 for none, and the class, 0 where it is refused.
#[repr(C)]
#[derive(Clone, Copy)]
pub struct FinalClass {
    pub refusal: u8,
    pub class: i8,
}

impl From<Result<i8, Refusal>> for FinalClass {
    ghost from_gives = { λ r a. a ≡ final_answer r };

    fn from(answer: Result<i8, Refusal>) -> FinalClass {
        match answer {
            Ok(class) => FinalClass { refusal: 0, class },
            Err(refusal) => FinalClass {
                refusal: u8::from(refusal),
                class: 0,
            },
        }
    }
}

impl Column {
    // The row 1 entry, below which no M1 credit takes a class.
    fn floor(self) -> u8
        ensures { result ≡ class_at 1 self.number }
    {
        CLASSES[0][(self.number - 1) as usize]
    }

    // Whether the class is an entry of the column.
    fn has_entry(self, class: u8) -> bool
        ensures { result ≡ is_entry self.number class }
    {
        let mut found = false;
        for row in &CLASSES {
            found |= row[(self.number - 1) as usize] == class;
        }
        (0 < class) & found
    }
}

// The class less the M1 credits, but never below the floor.
fn after_m1(floor: u8, class: u8, credits: u8) -> u8
    ensures { result ≡ max floor (class - credits) }
{
    floor.max(class.saturating_sub(credits))
}

// The class less the M2 credit, with no floor.
fn after_m2(class: u8, credit: u8) -> i8
    requires { (class ≤ 127) × (credit ≤ 128) }
    ensures { result ≡ sub_ℕ class credit }
{
    (class as i16 - credit as i16) as i8
}

// The final class, or its refusal.
pub fn final_class(column: u8, class: u8, word: u16) -> Result<i8, Refusal>
    ensures { final_answer result ≡ final_class_of column class word }
{
    let column = Column::try_from(column)?;
    if !column.has_entry(class) {
        return Err(Refusal::ClassInput);
    }
    let credits = Credits::of_word(word).ok_or(Refusal::MitigationDigit)?;
    let last = after_m2(after_m1(column.floor(), class, credits.m1), credits.m2);
    if HIGHEST_FINAL < last {
        return Err(Refusal::FinalClass);
    }
    Ok(last)
}
