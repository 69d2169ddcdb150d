//! Why no step more is taken.

ghost use Rattle.std.specs.Prelude.{◌≡◌};

use refusal::Refusal;

/// 255 steps are held.
#[derive(Clone, Copy, PartialEq, Eq, Debug)]
pub struct Full;

impl Refusal for Full {
    ghost number = { λ _. 12 };

    ghost returned = { λ _. 255 };

    fn number(&self) -> u8 {
        12
    }

    fn returned(&self) -> usize {
        255
    }
}

impl From<fixed::Full> for Full {
    ghost from_gives = { λ _ full. full ≡ record {} };

    fn from(_: fixed::Full) -> Full {
        Full
    }
}
