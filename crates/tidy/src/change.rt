//! What a rule makes of a whole.

use crate::head::Head;

/// A change of the whole that stands at some index.
#[derive(Clone, Copy)]
pub(crate) enum Change {
    /// The whole gives way to its only part.
    Lift,
    /// The whole becomes `(any)`.
    Clear,
    /// The part at this index gives way to its own parts.
    Unnest(usize),
    /// The later part goes, and the earlier one takes this head.
    Join {
        earlier: usize,
        later: usize,
        head: Head,
    },
}
