//! Queries where they lie in records: one, and some one after another.

ghost use Rattle.std.specs.Prelude.{◌≡◌, true, drop};
ghost use Rattle.rules.specs.Places.{stand_first};

use query::Node;

/// The query whose own record is at an index.
#[derive(Clone, Copy)]
pub(crate) struct Part<'a> {
    pub(crate) records: &'a [Node],
    pub(crate) at: usize,
    ghost stands: { stand_first 1 (drop at records.now) ≡ true },
}

/// So many queries one after another, the first at an index.
#[derive(Clone, Copy)]
pub(crate) struct Row<'a> {
    pub(crate) records: &'a [Node],
    pub(crate) at: usize,
    pub(crate) count: u8,
    ghost stand: { stand_first count (drop at records.now) ≡ true },
}
