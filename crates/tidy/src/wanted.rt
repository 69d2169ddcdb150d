//! What a rule looks for among the parts of a whole.

use query::Kind;

/// Which part is looked for.
#[derive(Clone, Copy)]
pub(crate) enum Wanted {
    /// One of this kind.
    Like(Kind),
    /// An `(any)` without parts.
    Empty,
}
