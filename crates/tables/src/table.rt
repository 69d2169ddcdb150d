//! A table of stretches.

ghost use Rattle.std.specs.Prelude.{◌≡◌, length};

use ends::Ends;

/// A set of stretches: row a has the ends of those that begin at position a.
#[derive(Clone, Copy)]
pub struct Table {
    pub(crate) rows: [Ends; 256],
    ghost whole: { length rows ≡ 256 },
}
