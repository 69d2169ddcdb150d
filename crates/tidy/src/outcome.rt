//! What a rule makes of two parts of a whole.

use crate::head::Head;

/// What becomes of two parts of a whole that a rule speaks of.
#[derive(Clone, Copy)]
pub(crate) enum Outcome {
    /// The later one goes, and the earlier one takes this head.
    Joined(Head),
    /// With them the whole fits nothing.
    Dead,
}
