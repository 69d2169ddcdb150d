//! Refusals: a number that says why, and a value that is returned with it.

#![tactic(auto)]

ghost use Rattle.std.specs.Prelude.{◌≡◌, ℕ, Some};
ghost use Rattle.refusal.specs.Told.{Told, told_text};

use std::fmt;

/// Why a call is refused. Code over any refusal knows what stands here and nothing else.
pub trait Refusal {
    ghost number: { Self → ℕ };

    ghost returned: { Self → ℕ };

    /// The refusal's number.
    fn number(&self) -> u8
        ensures { result ≡ number self.now };

    /// What is returned with the number.
    fn returned(&self) -> usize
        ensures { result ≡ returned self.now };
}

/// What is told of any refusal.
#[derive(Clone, Copy, PartialEq, Eq, Debug)]
pub struct Refused {
    pub number: u8,
    pub returned: usize,
}

impl<F: Refusal + Drop> From<F> for Refused {
    ghost from_gives = { λ fault told. Told (F.Refusal.number fault) (F.Refusal.returned fault) told };

    fn from(fault: F) -> Refused {
        Refused {
            number: fault.number(),
            returned: fault.returned(),
        }
    }
}

impl fmt::Display for Refused {
    ghost output = { λ r. Some (told_text r) };

    fn fmt<W: fmt::Write>(&self, f: &mut fmt::Formatter<W>) -> fmt::Result {
        write!(f, "refused {} {}", self.number, self.returned)
    }
}
