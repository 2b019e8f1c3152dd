// Why a case is refused, by the names and numbers of document 01 and document 02.
#![tactic(auto)]

ghost use Rattle.std.specs.Prelude.{◌≡◌};
ghost use Rattle.refusal.specs.Numbers.{number_of, number_in};

// Each refusal with its number.
#[derive(Clone, Copy, Debug, PartialEq, Eq)]
pub enum Refusal {
    Dimension = 1,
    Mass = 2,
    Speed = 3,
    Area = 4,
    BufferLength = 5,
    CellArea = 6,
    HeadCount = 7,
    NoMark = 8,
    ClassInput = 9,
    NoClass = 10,
    MitigationDigit = 11,
    FinalClass = 12,
    TextLength = 13,
    TextByte = 14,
    FrameLength = 15,
    NoFrontalArea = 16,
    HeightOrBudget = 17,
    BudgetSpent = 18,
    NegativeSpeed = 19,
    WantedColumn = 20,
    NoneForColumn = 21,
}

impl From<Refusal> for u8 {
    ghost from_gives = { λ r n. n ≡ number_of r };

    fn from(refusal: Refusal) -> u8 {
        refusal as u8
    }
}

// The refusal number of an answer that has no value beside it, 0 for none.
pub fn refusal_number(answer: Result<(), Refusal>) -> u8
    ensures { result ≡ number_in answer }
{
    match answer {
        Ok(()) => 0,
        Err(refusal) => refusal.into(),
    }
}
