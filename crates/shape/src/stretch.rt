//! A stretch of a line.

ghost use Rattle.std.specs.Prelude.{Some};
ghost use Rattle.shape.specs.Printed.{stretch_text};

use std::fmt;

/// A stretch of a line, from one position to another.
#[derive(Clone, Copy, PartialEq, Eq, Debug)]
pub struct Stretch {
    pub start: u8,
    pub end: u8,
}

impl fmt::Display for Stretch {
    ghost output = { λ x. Some (stretch_text x) };

    fn fmt<W: fmt::Write>(&self, f: &mut fmt::Formatter<W>) -> fmt::Result {
        write!(f, "{} {}", self.start, self.end)
    }
}
