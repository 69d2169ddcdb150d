//! A symbol of an alphabet.

use crate::Bounds;
use crate::name::Name;

/// A name, and the bounds that a step must keep to carry it.
#[derive(Clone, Copy)]
pub struct Symbol {
    pub(crate) name: Name,
    pub(crate) bounds: Bounds,
}
