//! What a search has found.

ghost use Rattle.tables.specs.Holds.{Rising};

use tables::Table;

// The stretches that a query fits on a line of n steps, but for null ones.
#[derive(Drop)]
pub(crate) struct Found {
    pub(crate) table: Table,
    pub(crate) n: u8,
    pub(crate) ghost rising: { Rising table n },
}
