//! The positions of a set, one after another.

ghost use Rattle.std.specs.Iterator.{YieldsFirst, item_count};
ghost use Rattle.ends.specs.Positions.{left};

use crate::Ends;

/// The positions of a set from one on, the lowest first.
#[derive(Clone, Drop)]
pub struct Positions<'a> {
    pub(crate) ends: &'a Ends,
    pub(crate) at: usize,
}

impl<'a> Iterator for Positions<'a> {
    type Item = u8;

    ghost next_gives = { YieldsFirst left };

    ghost remaining = { item_count left };

    fn next(&mut self) -> Option<u8> {
        let b = self.ends.next_from(self.at)?;
        self.at = usize::from(b) + 1;
        Some(b)
    }
}
