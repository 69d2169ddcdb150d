//! The head of a part: what its record says besides its parts.

use query::Kind;

/// A part's kind and its number.
#[derive(Clone, Copy, PartialEq, Eq)]
pub(crate) struct Head {
    pub(crate) kind: Kind,
    pub(crate) number: u8,
}
