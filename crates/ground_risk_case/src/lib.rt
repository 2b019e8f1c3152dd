// The whole case, from its text to the printed frame.
#![tactic(auto)]

ghost use Rattle.std.specs.Prelude.{◌≡◌};
ghost use Rattle.refusal.specs.Numbers.{number_in};
ghost use Rattle.assessment.specs.Assessment.{risk_assessed, assessment_answer};
ghost use Rattle.case_text.specs.Text.{map_buffers_left};
ghost use Rattle.ground_risk_case.specs.Case.{printed_fields, CaseContract};
ghost use Rattle.ground_risk_case.specs.PrivateAssessment.{assessment_in};

use assessment::{GroundRisk, Operation};
use case_text::read_case;
use frame::{FRAME_LENGTH, FrameFields, write_frame, write_refusal};
use map::GroundMap;
use refusal::Refusal;
use sheet::Aircraft;

// The printed fields of a ground risk.
fn printed_fields(risk: GroundRisk) -> FrameFields
    ensures { result ≡ printed_fields (risk_assessed risk) }
{
    FrameFields {
        low: risk.sheet.area.low,
        high: risk.sheet.area.high,
        column: risk.sheet.column,
        flag: risk.sheet.flag,
        size_column: risk.sheet.size_column,
        row_used: risk.row_used,
        place: risk.cells.place,
        people: risk.cells.people,
        intrinsic: risk.intrinsic,
        final_class: risk.final_class,
    }
}

// Reads the text into the lent buffers, and assesses what it asks.
fn assess_text(text: &[u8], counts: &mut [u32], marks: &mut [u64]) -> Result<GroundRisk, Refusal>
    ensures answer { assessment_answer result ≡ assessment_in text.now (record { counts = counts.old; marks = marks.old }) }
    ensures left { record { counts = counts.new; marks = marks.new } ≡ map_buffers_left text.now (record { counts = counts.old; marks = marks.old }) }
{
    let head = read_case(text, counts, marks)?;
    let operation = Operation {
        aircraft: Aircraft {
            dimension: head.dimension,
            mass: head.mass,
            speed: head.speed,
        },
        map: GroundMap {
            counts,
            cell_area: head.cell_area,
        },
        marks,
        controlled: head.controlled,
        word: head.word,
    };
    operation.assess()
}

// Reads the text into the lent count and footprint buffers, and prints the case into the lent frame buffer. Refusal 15 where the frame
// buffer is too short, and then nothing is read or written.
pub fn print_case(
    text: &[u8],
    counts: &mut [u32],
    marks: &mut [u64],
    frame: &mut [u8],
) -> Result<(), Refusal>
    ensures { CaseContract text.now
        (record { map = record { counts = counts.old; marks = marks.old }; frame = frame.old })
        (number_in result)
        (record { map = record { counts = counts.new; marks = marks.new }; frame = frame.new }) }
{
    if frame.len() < FRAME_LENGTH {
        return Err(Refusal::FrameLength);
    }
    match assess_text(text, counts, marks) {
        Ok(risk) => write_frame(0, printed_fields(risk), frame),
        Err(refusal) => {
            write_refusal(refusal.into(), frame)?;
            Err(refusal)
        }
    }
}
