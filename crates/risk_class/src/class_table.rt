// The class table.
ghost use Rattle.std.specs.Prelude.{◌≡◌, ◌≤◌, true, MatchResult};
ghost use Rattle.refusal.specs.declared.Refusal.TheVariants.{ClassInput};
ghost use Rattle.risk_class.specs.ClassTable.{no_class, class_at, wrong_column, used_row, intrinsic_class_of, intrinsic_answer};
ghost use Rattle.risk_class.specs.PrivateOptions.{unless};

use refusal::Refusal;

// An entry that is "none". As an Option each of the other 32 entries would be a Some, for one row's sake; no class is 0.
const NO_CLASS: u8 = 0;

const COLUMNS: u8 = 5;

const ROWS: u8 = 7;

// Rows 1 to 7, row 1 for controlled ground, of columns 1 to 5. Static, as CREDITS is: a constant table is laid on the stack at each
// reading.
pub(crate) static CLASSES: [[u8; 5]; 7] = [
    [1, 1, 2, 3, 3],
    [2, 3, 4, 5, 6],
    [3, 4, 5, 6, 7],
    [4, 5, 6, 7, 8],
    [5, 6, 7, 8, 9],
    [6, 7, 8, 9, 10],
    [7, 8, NO_CLASS, NO_CLASS, NO_CLASS],
];

// The answer for C, by the words of document 01: a refusal number, 0 for none, and the class, 0 where it is refused.
#[repr(C)]
#[derive(Clone, Copy)]
pub struct IntrinsicClass {
    pub refusal: u8,
    pub class: u8,
}

impl From<Result<u8, Refusal>> for IntrinsicClass {
    ghost from_gives = { λ r a. a ≡ intrinsic_answer r };

    fn from(answer: Result<u8, Refusal>) -> IntrinsicClass {
        match answer {
            Ok(class) => IntrinsicClass { refusal: 0, class },
            Err(refusal) => IntrinsicClass {
                refusal: u8::from(refusal),
                class: 0,
            },
        }
    }
}

// A column of the class table.
#[derive(Clone, Copy)]
pub(crate) struct Column {
    pub number: u8,
    ghost in_table: { (1 ≤ number) × (number ≤ 5) },
}

impl TryFrom<u8> for Column {
    type Error = Refusal;

    ghost try_from_gives = { λ n r. MatchResult r (λ c. c.number ≡ n) (λ e. (e ≡ ClassInput) × (wrong_column n ≡ true)) };

    fn try_from(number: u8) -> Result<Column, Refusal> {
        if (number < 1) | (COLUMNS < number) {
            return Err(Refusal::ClassInput);
        }
        Ok(Column { number })
    }
}

impl Column {
    // The entry of a row, none where the table says "none".
    fn entry(self, row: u8) -> Option<u8>
        requires { (1 ≤ row) × (row ≤ 7) }
        ensures { result ≡ unless no_class (class_at row self.number) }
    {
        let class = CLASSES[(row - 1) as usize][(self.number - 1) as usize];
        if class == NO_CLASS { None } else { Some(class) }
    }
}

// The class table's row in use: row 1 on controlled ground, else the footprint's.
pub fn used_row(row: u8, controlled: u8) -> u8
    ensures { result ≡ used_row row controlled }
{
    if controlled == 1 { 1 } else { row }
}

// The intrinsic class, or its refusal. The numbers may be any, since they may come from C.
pub fn intrinsic_class(column: u8, row: u8, controlled: u8) -> Result<u8, Refusal>
    ensures { intrinsic_answer result ≡ intrinsic_class_of column row controlled }
{
    let column = Column::try_from(column)?;
    if ((row < 2) | (ROWS < row)) | (1 < controlled) {
        return Err(Refusal::ClassInput);
    }
    column
        .entry(used_row(row, controlled))
        .ok_or(Refusal::NoClass)
}
