//! Why a sheet is refused.

ghost use Rattle.alphabet.specs.Refusals.{number as number_of, returned as returned_of};

use refusal::Refusal;

#[derive(Clone, Copy, PartialEq, Eq, Debug)]
pub enum SheetFault {
    /// The number of symbols, the width of a name or the length of the sheet is wrong.
    BadLayout,
    /// The symbol's name is malformed, an operator word or an earlier symbol's name.
    BadName { symbol: u8 },
    /// The symbol's bounds are out of range or out of order, or ask what there is not.
    BadRow { symbol: u8 },
}

impl Refusal for SheetFault {
    ghost number = { number_of };

    ghost returned = { returned_of };

    fn number(&self) -> u8 {
        match self {
            SheetFault::BadLayout => 7,
            SheetFault::BadName { .. } => 8,
            SheetFault::BadRow { .. } => 9,
        }
    }

    fn returned(&self) -> usize {
        match self {
            SheetFault::BadLayout => 0,
            SheetFault::BadName { symbol } => *symbol as usize,
            SheetFault::BadRow { symbol } => *symbol as usize,
        }
    }
}
