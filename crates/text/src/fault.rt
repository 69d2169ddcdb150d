//! Why a query is not bound, not written, or not in a sheet.

ghost use Rattle.std.specs.Prelude.{◌≡◌};
ghost use Rattle.text.specs.Faults.{bind_number, bind_returned, bind_length, write_number, write_returned};

use refusal::Refusal;

/// Why a query that was read is not bound.
#[derive(Clone, Copy, PartialEq, Eq, Debug)]
pub enum BindFault {
    /// The sheet has under 64 records.
    Sheet,
    /// The records are no query that was read from such a text.
    Records,
    /// The name at this place and of this length is not in the alphabet.
    Name { place: u16, length: u16 },
}

/// Why a bound query is not written.
#[derive(Clone, Copy, PartialEq, Eq, Debug)]
pub enum WriteFault {
    /// The sheet has under 64 records.
    Sheet,
    /// The buffer has under 4,096 bytes.
    Buffer,
    /// The records are no query that was bound by such an alphabet.
    Records,
}

/// Why a sheet does not hold the records of a bound shape.
#[derive(Clone, Copy, PartialEq, Eq, Debug)]
pub enum SheetFault {
    /// The sheet has under 64 records.
    Short,
    /// The records are no query that was bound by an alphabet of so many symbols.
    Unbound,
}

impl BindFault {
    /// The length of the name, where one is the cause.
    pub fn length(self) -> usize
        ensures { result ≡ bind_length self }
    {
        match self {
            BindFault::Sheet | BindFault::Records => 0,
            BindFault::Name { length, .. } => usize::from(length),
        }
    }
}

impl Refusal for BindFault {
    ghost number = { bind_number };

    ghost returned = { bind_returned };

    fn number(&self) -> u8 {
        match self {
            BindFault::Sheet => 6,
            BindFault::Records => 14,
            BindFault::Name { .. } => 10,
        }
    }

    // The records needed, 0, or the place of the name.
    fn returned(&self) -> usize {
        match self {
            BindFault::Sheet => 64,
            BindFault::Records => 0,
            BindFault::Name { place, .. } => usize::from(*place),
        }
    }
}

impl Refusal for WriteFault {
    ghost number = { write_number };

    ghost returned = { write_returned };

    fn number(&self) -> u8 {
        match self {
            WriteFault::Sheet | WriteFault::Buffer => 6,
            WriteFault::Records => 14,
        }
    }

    // The records or the bytes needed, or 0.
    fn returned(&self) -> usize {
        match self {
            WriteFault::Sheet => 64,
            WriteFault::Buffer => 4096,
            WriteFault::Records => 0,
        }
    }
}
