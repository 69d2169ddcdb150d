//! What is kept of each record of a query while its stretches are found.

ghost use Rattle.std.specs.Prelude.{◌≡◌, length};

use ends::Ends;
use tables::Table;

/// What is kept of one record: the record after its query, what it fits seen from each stretch's own start, and for a repeat
/// what may follow its first piece and where it may stop.
#[derive(Clone, Copy)]
pub(crate) struct Entry {
    pub(crate) next: usize,
    pub(crate) own: Table,
    pub(crate) later: Table,
    pub(crate) stops: Ends,
}

/// What is kept of each record.
#[derive(Drop)]
pub struct Kept {
    pub(crate) entries: [Entry; 64],
    ghost whole: { length entries ≡ 64 },
}
