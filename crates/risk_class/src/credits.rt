// The credits of a mitigation word.
ghost use Rattle.std.specs.Prelude.{◌≡◌};
ghost use Rattle.risk_class.specs.Mitigation.{not_offered, credit_of};
ghost use Rattle.risk_class.specs.PrivateOptions.{unless, place_of, credits_of};

// The mitigations, in the order of their digits.
#[derive(Clone, Copy)]
enum Mitigation {
    M1A,
    M1B,
    M1C,
    M2,
}

// The credits of the digits 0 to 3 of each mitigation, none where a digit isn't offered.
static CREDITS: [[Option<u8>; 4]; 4] = [
    [Some(0), Some(1), Some(2), None],
    [Some(0), None, Some(1), Some(2)],
    [Some(0), Some(1), None, None],
    [Some(0), None, Some(1), Some(2)],
];

impl Mitigation {
    // The place of its digit in a word, 0 for the first.
    fn place(self) -> usize
        ensures { result ≡ place_of self }
    {
        self as usize
    }

    // The credit that a word claims.
    fn credit(self, word: u16) -> Option<u8>
        ensures { result ≡ unless not_offered (credit_of word (place_of self)) }
    {
        let place = self.place();
        let digit = ((word >> (12 - 4 * place)) % 16) as usize;
        if digit < 4 {
            CREDITS[place][digit]
        } else {
            None
        }
    }
}

// What a word takes off the class: by M1(A), M1(B) and M1(C) together, and by M2.
#[derive(Clone, Copy)]
pub(crate) struct Credits {
    pub m1: u8,
    pub m2: u8,
}

impl Credits {
    // The credits that a word claims, none where a digit isn't offered.
    pub(crate) fn of_word(word: u16) -> Option<Credits>
        ensures { result ≡ credits_of word }
    {
        let a = Mitigation::M1A.credit(word)?;
        let b = Mitigation::M1B.credit(word)?;
        let c = Mitigation::M1C.credit(word)?;
        let m2 = Mitigation::M2.credit(word)?;
        Some(Credits { m1: a + b + c, m2 })
    }
}
