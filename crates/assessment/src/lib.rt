// The assessment of an aircraft over a lent map: sheet, footprint, intrinsic and final class, or the first refusal.
#![tactic(auto)]

ghost use Rattle.std.specs.Prelude.{◌≡◌};
ghost use Rattle.assessment.specs.Question.{asked};
ghost use Rattle.assessment.specs.Assessment.{assessment_answer, assessment_of};

use footprint::{Footprint, MarkedCells, footprint_on_map};
use map::GroundMap;
use refusal::Refusal;
use risk_class::{final_class, intrinsic_class, used_row};
use sheet::{Aircraft, Sheet};

// What is to be assessed: an aircraft over a lent map, the marks of its footprint, the controlled-ground mark and the mitigation word.
#[derive(Clone, Copy)]
pub struct Operation<'a> {
    pub aircraft: Aircraft,
    pub map: GroundMap<'a>,
    pub marks: &'a [u64],
    pub controlled: u8,
    pub word: u16,
}

// What an operation that isn't refused has.
#[derive(Clone, Copy)]
pub struct GroundRisk {
    pub sheet: Sheet,
    pub cells: MarkedCells,
    // the class table's row: 1 on controlled ground, else the footprint's
    pub row_used: u8,
    pub intrinsic: u8,
    pub final_class: i8,
}

// The answer for C, by the words of document 01: a refusal number, 0 for none, and the ground risk, all zeros where it is refused.
#[repr(C)]
#[derive(Clone, Copy, Default)]
pub struct Assessment {
    pub refusal: u8,
    pub sheet: Sheet,
    pub footprint: Footprint,
    pub row_used: u8,
    pub intrinsic: u8,
    pub final_class: i8,
}

impl From<Result<GroundRisk, Refusal>> for Assessment {
    ghost from_gives = { λ r a. a ≡ assessment_answer r };

    fn from(answer: Result<GroundRisk, Refusal>) -> Assessment {
        match answer {
            Ok(risk) => Assessment {
                refusal: 0,
                sheet: risk.sheet,
                footprint: Footprint::from(Ok(risk.cells)),
                row_used: risk.row_used,
                intrinsic: risk.intrinsic,
                final_class: risk.final_class,
            },
            Err(refusal) => Assessment {
                refusal: refusal.into(),
                ..Assessment::default()
            },
        }
    }
}

impl Operation<'_> {
    // The ground risk, or the first of refusals 1 to 12, in the order sheet, footprint, class, mitigation. In place of each call: a
    // refusal took twice the time where it came from a function of its own.
    #[inline(always)]
    pub fn assess(self) -> Result<GroundRisk, Refusal>
        ensures { assessment_answer result ≡ assessment_of (asked self.entry) }
    {
        let sheet = self.aircraft.sheet()?;
        let cells = footprint_on_map(self.map, self.marks)?;
        let intrinsic = intrinsic_class(sheet.column, cells.row, self.controlled)?;
        let final_class = final_class(sheet.column, intrinsic, self.word)?;
        Ok(GroundRisk {
            sheet,
            cells,
            row_used: used_row(cells.row, self.controlled),
            intrinsic,
            final_class,
        })
    }
}
