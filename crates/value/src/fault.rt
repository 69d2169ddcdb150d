//! Why a value is not made.

ghost use Rattle.value.specs.Refusals.{number as number_of, returned as returned_of};

use refusal::Refusal;

#[derive(Clone, Copy, Debug, PartialEq, Eq)]
pub enum ValueFault {
    /// The value lies outside the range of its kind.
    OutOfRange,
}

impl Refusal for ValueFault {
    ghost number = { number_of };

    ghost returned = { returned_of };

    fn number(&self) -> u8 {
        match self {
            ValueFault::OutOfRange => 11,
        }
    }

    fn returned(&self) -> usize {
        match self {
            ValueFault::OutOfRange => 0,
        }
    }
}
