//! From where a walk is seen.

ghost use Rattle.std.specs.Prelude.{ℕ, ◌+◌, ◌≤◌, length};
ghost use Rattle.steps.specs.Meaning.{steps_of};
ghost use Rattle.wholes.specs.Shows.{lowest};

use crate::walk::Walk;
use wholes::View;

/// A walk in which stretches are seen from somewhere, up to a position.
#[derive(Clone, Copy)]
pub struct Sight<'a> {
    pub walk: Walk<'a>,
    pub view: View,
    pub to: u8,
    pub ghost low: { lowest view ≤ to },
    pub ghost high: { to ≤ length (steps_of walk.steps.now) },
}

/// A walk in which windows of a length are seen from s, up to a position.
#[derive(Clone, Copy)]
pub(crate) struct Windows<'a> {
    pub(crate) walk: Walk<'a>,
    pub(crate) s: u8,
    pub(crate) len: u8,
    pub(crate) to: u8,
    ghost fits: { s + len ≤ to },
    ghost high: { to ≤ length (steps_of walk.steps.now) },
}
