// Why a number or a text is no card.
ghost use Rattle.std.specs.Prelude.{◌≡◌};
ghost use Rattle.cards.specs.Codes.{code_fault_number};

// A number that is no card's code: refusal 4.
#[derive(Clone, Copy, Debug, PartialEq, Eq)]
pub enum CodeFault {
    Above51,
}

// The number of the refusal.
impl From<CodeFault> for u8 {
    ghost from_gives = { λ fault number. number ≡ code_fault_number fault };

    fn from(fault: CodeFault) -> u8
        ensures number { result ≡ code_fault_number fault }
    {
        match fault {
            CodeFault::Above51 => 4,
        }
    }
}

// A text that is no card.
#[derive(Clone, Copy, Debug, PartialEq, Eq)]
pub enum TextFault {
    // fewer than two letters
    TooShort,
    NoSuchRank(char),
    NoSuchSuit(char),
}
