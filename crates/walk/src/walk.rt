//! A walk through a query.

ghost use Rattle.steps.specs.Meaning.{steps_of};
ghost use Rattle.walk.specs.Walk.{ReadyFrom};

use crate::kept::Kept;
use query::Node;
use steps::Steps;

/// A walk through the query that stands in records from one of them on, over what is kept of them.
///
/// What a record fits seen from a position is found by going down to its parts, a level at a time. What it fits seen from
/// each stretch's own start is found once and kept, so that nothing is found again for each position.
#[derive(Clone, Copy)]
pub struct Walk<'a> {
    pub records: &'a [Node],
    pub steps: &'a Steps,
    pub kept: &'a Kept,
    pub from: usize,
    pub ghost right: { ∥ ReadyFrom kept.now records.now (steps_of steps.now) from ∥₁ },
}
