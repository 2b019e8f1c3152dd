// The aircraft's sheet (document 01, "The aircraft and its area").
#![tactic(auto)]

ghost use Rattle.std.specs.Prelude.{◌≡◌};
ghost use Rattle.refusal.specs.Numbers.{number_in};
ghost use Rattle.refusal.specs.Refusals.{first_refusal};
ghost use Rattle.sheet.specs.Ranges.{InRange};
ghost use Rattle.sheet.specs.Sheet.{zero_sheet, sheet_answer, range_tests, sheet_with_size_column, sheet_of};

mod lines;

// the numbers of the lines are said once: trade_off solves the lines by them
pub use crate::lines::{CIRCLE_RATE, GLIDE, RUN_RATE, RUN_SCALE, SAVING_TIMES_MASS, TENTHS_SCALE};
use crate::lines::{area, run, saving, slide, total};
use columns::{Bracket, column_and_flag, size_column};
use refusal::Refusal;

// Twice the radius of a person, in mm.
pub const PERSON_WIDTH: u64 = 600;

// The three area formulas: the whole one, six tenths of it, and the one without slide.
#[derive(Clone, Copy, Debug, PartialEq, Eq)]
pub enum Formula {
    Whole,
    SixTenths,
    GlideOnly,
}

// Lines 1 to 6, the column, the flag and the size column. Lengths are in micrometres, the total (T of document 01) in thousandths
// of a square millimetre, the area in square centimetres.
#[repr(C)]
#[derive(Clone, Copy, Default)]
pub struct Sheet {
    pub glide: Bracket,
    pub run: Bracket,
    pub saving: Bracket,
    pub slide: Bracket,
    pub total: Bracket,
    pub area: Bracket,
    pub column: u8,
    pub flag: u8,
    // by dimension and speed alone, 0 where no size is large enough; the class comes from the area's column
    pub size_column: u8,
}

// The numbers of an aircraft: dimension in mm, mass in g, speed in cm/s.
#[derive(Clone, Copy)]
pub struct Aircraft {
    pub dimension: u32,
    pub mass: u32,
    pub speed: u32,
}

// The answer for C, by the words of document 01: a refusal number, 0 for none, and the sheet, all zeros where it is refused.
#[repr(C)]
#[derive(Clone, Copy)]
pub struct SheetAnswer {
    pub refusal: u8,
    pub sheet: Sheet,
}

impl From<Result<Sheet, Refusal>> for SheetAnswer {
    ghost from_gives = { λ r a. a ≡ sheet_answer r };

    // in place, and so the three below: else the answer is copied by way of the stack, 24.1 ns for 23.6. And field by field: a whole
    // sheet is copied with its padding, 26.6 ns for 24.6.
    #[inline(always)]
    fn from(answer: Result<Sheet, Refusal>) -> SheetAnswer {
        match answer {
            Ok(sheet) => SheetAnswer {
                refusal: 0,
                sheet: Sheet {
                    glide: sheet.glide,
                    run: sheet.run,
                    saving: sheet.saving,
                    slide: sheet.slide,
                    total: sheet.total,
                    area: sheet.area,
                    column: sheet.column,
                    flag: sheet.flag,
                    size_column: sheet.size_column,
                },
            },
            Err(refusal) => SheetAnswer {
                refusal: u8::from(refusal),
                sheet: Sheet::refused(),
            },
        }
    }
}

impl Sheet {
    // millimetres
    pub const DIMENSION_MIN: u32 = 50;

    pub const DIMENSION_MAX: u32 = 100_000;

    // grams
    pub const MASS_MIN: u32 = 50;

    pub const MASS_MAX: u32 = 25_000_000;

    // centimetres a second; the lowest speed is 0
    pub const SPEED_MAX: u32 = 40_000;

    // The sheet of a refused aircraft: document 01 wants it as a function of the type.
    pub fn refused() -> Sheet
        ensures { result ≡ zero_sheet }
    {
        Sheet::default()
    }
}

impl Aircraft {
    // Refusals 1 to 3: dimension, mass, speed out of range.
    #[inline(always)]
    pub fn check_ranges(self) -> Result<(), Refusal>
        ensures { number_in result ≡ first_refusal (range_tests self.dimension self.mass self.speed) }
    {
        if (self.dimension < Sheet::DIMENSION_MIN) | (Sheet::DIMENSION_MAX < self.dimension) {
            return Err(Refusal::Dimension);
        }
        if (self.mass < Sheet::MASS_MIN) | (Sheet::MASS_MAX < self.mass) {
            return Err(Refusal::Mass);
        }
        if Sheet::SPEED_MAX < self.speed {
            return Err(Refusal::Speed);
        }
        Ok(())
    }

    // The sheet, with the size column given, of an aircraft within its ranges, or refusal 4.
    #[inline(always)]
    fn sheet_in_range(self, size_column: u8) -> Result<Sheet, Refusal>
        requires { InRange self.dimension self.mass self.speed }
        ensures { sheet_answer result ≡ sheet_with_size_column self.dimension self.mass self.speed size_column }
    {
        let dimension = self.dimension as u64;
        let run = run(self.speed as u64);
        let saving = saving(self.mass as u64);
        let slide = slide(run, saving);
        let total = total(dimension + PERSON_WIDTH, slide);
        let area = area(dimension, total);
        let found = column_and_flag(area).ok_or(Refusal::Area)?;
        Ok(Sheet {
            glide: GLIDE,
            run,
            saving,
            slide,
            total,
            area,
            column: found.column,
            flag: found.flag,
            size_column,
        })
    }

    // The sheet with any size column in the aircraft's own place, or its refusal.
    #[inline(always)]
    pub fn sheet_with_size_column(self, size_column: u8) -> Result<Sheet, Refusal>
        ensures { sheet_answer result ≡ sheet_with_size_column self.dimension self.mass self.speed size_column }
    {
        self.check_ranges()?;
        self.sheet_in_range(size_column)
    }

    // The sheet, or its refusal: 1 dimension, 2 mass, 3 speed, 4 area. The ranges are tested before the size column is sought: the other
    // way round, as a call of the above, the sheet has 0.92 to 0.95 of the tuned Rust's speed, and this way 1.00.
    #[inline(always)]
    pub fn sheet(self) -> Result<Sheet, Refusal>
        ensures { sheet_answer result ≡ sheet_of self.dimension self.mass self.speed }
    {
        self.check_ranges()?;
        self.sheet_in_range(size_column(self.dimension, self.speed).unwrap_or(0))
    }
}
