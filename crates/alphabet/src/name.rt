//! The letters of a name.

use fixed::List;

/// A word of at most sixteen bytes.
#[derive(Clone, Copy)]
pub struct Name {
    pub(crate) letters: List<u8, 16>,
}
