//! What a step must keep to carry a symbol.

ghost use Rattle.std.specs.Prelude.{◌≡◌};
ghost use Rattle.std.specs.Result.{result_ok};
ghost use Rattle.alphabet.specs.Sheets.{asked_by};

/// What is asked of the first or of the last value of a step.
#[derive(Clone, Copy, PartialEq, Eq, Debug)]
pub enum Asked {
    Anyvalue,
    Zero,
    Nonzero,
}

/// A byte of a sheet that asks for what there is not.
#[derive(Clone, Copy, PartialEq, Eq, Debug)]
pub struct NotAsked;

impl TryFrom<u8> for Asked {
    type Error = NotAsked;

    ghost try_from_gives = { λ byte asked. result_ok asked ≡ asked_by byte };

    fn try_from(byte: u8) -> Result<Asked, NotAsked> {
        match byte {
            0 => Ok(Asked::Anyvalue),
            1 => Ok(Asked::Zero),
            2 => Ok(Asked::Nonzero),
            _ => Err(NotAsked),
        }
    }
}

/// The bounds of a symbol: the lowest and the highest rank of a step that carries it, and what is asked of its values.
#[derive(Clone, Copy, PartialEq, Eq, Debug)]
pub struct Bounds {
    pub low: i64,
    pub high: i64,
    pub first: Asked,
    pub last: Asked,
}

impl Bounds {
    // A step of rank 0, whatever its values are.
    pub(crate) const LEVEL: Bounds = Bounds {
        low: 0,
        high: 0,
        first: Asked::Anyvalue,
        last: Asked::Anyvalue,
    };
}
