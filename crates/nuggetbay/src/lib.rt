// The boundary: every operation that a console written in C or Rust may call. Each one answers as C has it what the operation
// that it passes on to answers.
#![tactic(auto)]

ghost use Rattle.std.specs.Prelude.{◌≡◌};
ghost use Rattle.sheet.specs.Sheet.{sheet_of};
ghost use Rattle.high_angle.specs.HighAngle.{high_angle_of};
ghost use Rattle.descent.specs.Descent.{descent_of};
ghost use Rattle.trade_off.specs.TradeOff.{greatest_speed_of, greatest_mass_of};
ghost use Rattle.footprint.specs.Footprint.{footprint_of};
ghost use Rattle.risk_class.specs.ClassTable.{intrinsic_class_of};
ghost use Rattle.risk_class.specs.Mitigation.{final_class_of};
ghost use Rattle.assessment.specs.Assessment.{assessment_of};
ghost use Rattle.case_text.specs.Text.{ReadingContract};
ghost use Rattle.frame.specs.Frame.{printed, WritingContract};
ghost use Rattle.ground_risk_case.specs.Case.{CaseContract};

use assessment::{Assessment, Operation};
use case_text::{Reading, read_case};
use descent::{Descent, descent_of};
use footprint::{Footprint, footprint_on_map};
use frame::{FrameFields, write_frame};
use ground_risk_case::print_case;
use high_angle::{HighAngle, high_angle_of};
use map::GroundMap;
use refusal::refusal_number;
use risk_class::{FinalClass, IntrinsicClass, final_class, intrinsic_class};
use sheet::{Aircraft, SheetAnswer};
use trade_off::{GreatestMass, GreatestSpeed, greatest_mass, greatest_speed};

// The aircraft's sheet.
#[unsafe(no_mangle)]
pub extern "C" fn nb_sheet(dimension: u32, mass: u32, speed: u32) -> SheetAnswer
    ensures { result ≡ sheet_of dimension mass speed }
{
    let aircraft = Aircraft {
        dimension,
        mass,
        speed,
    };
    SheetAnswer::from(aircraft.sheet())
}

// The high impact angle area of a multirotor.
#[unsafe(no_mangle)]
pub extern "C" fn nb_high_angle(dimension: u32, mass: u32, speed: u32) -> HighAngle
    ensures { result ≡ high_angle_of dimension mass speed }
{
    let aircraft = Aircraft {
        dimension,
        mass,
        speed,
    };
    HighAngle::from(high_angle_of(aircraft))
}

// The descent of a multirotor from its operating height.
#[unsafe(no_mangle)]
pub extern "C" fn nb_descent(
    dimension: u32,
    mass: u32,
    speed: u32,
    height: u32,
    budget: u32,
) -> Descent
    ensures { result ≡ descent_of dimension mass speed height budget }
{
    let aircraft = Aircraft {
        dimension,
        mass,
        speed,
    };
    Descent::from(descent_of(aircraft, height, budget))
}

// The greatest speed for a column.
#[unsafe(no_mangle)]
pub extern "C" fn nb_greatest_speed(dimension: u32, mass: u32, column: u8) -> GreatestSpeed
    ensures { result ≡ greatest_speed_of dimension mass column }
{
    GreatestSpeed::from(greatest_speed(dimension, mass, column))
}

// The greatest mass for a column.
#[unsafe(no_mangle)]
pub extern "C" fn nb_greatest_mass(dimension: u32, speed: u32, column: u8) -> GreatestMass
    ensures { result ≡ greatest_mass_of dimension speed column }
{
    GreatestMass::from(greatest_mass(dimension, speed, column))
}

// The footprint on a lent map.
#[unsafe(no_mangle)]
pub extern "C" fn nb_footprint(counts: &[u32], marks: &[u64], cell_area: u32) -> Footprint
    ensures { result ≡ footprint_of (record { counts = counts.now; cell_area = cell_area }) marks.now }
{
    Footprint::from(footprint_on_map(GroundMap { counts, cell_area }, marks))
}

// The intrinsic class.
#[unsafe(no_mangle)]
pub extern "C" fn nb_intrinsic_class(column: u8, row: u8, controlled: u8) -> IntrinsicClass
    ensures { result ≡ intrinsic_class_of column row controlled }
{
    IntrinsicClass::from(intrinsic_class(column, row, controlled))
}

// The final class.
#[unsafe(no_mangle)]
pub extern "C" fn nb_final_class(column: u8, class: u8, word: u16) -> FinalClass
    ensures { result ≡ final_class_of column class word }
{
    FinalClass::from(final_class(column, class, word))
}

// Sheet, footprint and both classes over a lent map.
#[unsafe(no_mangle)]
pub extern "C" fn nb_assess(
    dimension: u32,
    mass: u32,
    speed: u32,
    counts: &[u32],
    marks: &[u64],
    cell_area: u32,
    controlled: u8,
    word: u16,
) -> Assessment
    ensures { result ≡ assessment_of (record {
      dimension = dimension;
      mass = mass;
      speed = speed;
      map = record { counts = counts.now; cell_area = cell_area };
      marks = marks.now;
      controlled = controlled;
      word = word;
    }) }
{
    let operation = Operation {
        aircraft: Aircraft {
            dimension,
            mass,
            speed,
        },
        map: GroundMap { counts, cell_area },
        marks,
        controlled,
        word,
    };
    Assessment::from(operation.assess())
}

// Reads a case text into the lent buffers.
#[unsafe(no_mangle)]
pub extern "C" fn nb_read_case(text: &[u8], counts: &mut [u32], marks: &mut [u64]) -> Reading
    ensures { ReadingContract text.now (record { counts = counts.old; marks = marks.old }) result
        (record { counts = counts.new; marks = marks.new }) }
{
    Reading::from(read_case(text, counts, marks))
}

// Writes the frame, or the refusal, at the start of the lent buffer.
#[unsafe(no_mangle)]
pub extern "C" fn nb_write_frame(refusal: u8, fields: FrameFields, frame: &mut [u8]) -> u8
    ensures { WritingContract (printed refusal fields) frame.old result frame.new }
{
    refusal_number(write_frame(refusal, fields, frame))
}

// The whole case, from its text to the printed frame.
#[unsafe(no_mangle)]
pub extern "C" fn nb_case(
    text: &[u8],
    counts: &mut [u32],
    marks: &mut [u64],
    frame: &mut [u8],
) -> u8
    ensures { CaseContract text.now
        (record { map = record { counts = counts.old; marks = marks.old }; frame = frame.old })
        result
        (record { map = record { counts = counts.new; marks = marks.new }; frame = frame.new }) }
{
    refusal_number(print_case(text, counts, marks, frame))
}
