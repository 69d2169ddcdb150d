//! What a walk takes from what is kept of a part.

ghost use Rattle.std.specs.Prelude.{◌≡◌, ℕ, length};
ghost use Rattle.std.specs.Iterator.{YieldsFirst, item_count};
ghost use Rattle.query.specs.declared.node.Role.{Role};
ghost use Rattle.query.specs.declared.node.Role.TheVariants.{Shape};
ghost use Rattle.query.specs.Stands.{next_at};
ghost use Rattle.wholes.specs.declared.view.View.TheVariants.{Own};
ghost use Rattle.wholes.specs.Shows.{Shows};
ghost use Rattle.walk.specs.Seeing.{line, fitting, Part, Parts};
ghost use Rattle.walk.specs.Places.{places, ahead};

use crate::places::Places;
use crate::walk::Walk;
use tables::Table;

impl<'a> Walk<'a> {
    // The record after the part at record i.
    pub(crate) fn after(&self, i: usize) -> usize
        requires { ∥ ((r : Role) × Part self.now 16 r i) ∥₁ }
        ensures { result ≡ next_at 16 self.now.records.now i }
    {
        self.kept.entries[i].next
    }

    // The records at which so many parts stand, the first at record i.
    pub(crate) fn parts(&self, i: usize, count: u8) -> Places<'a>
        requires { (d : ℕ) × (r : Role) × Parts self.now d r count i }
        ensures { ahead result ≡ places self.now count i }
    {
        Places {
            walk: *self,
            at: i,
            count,
        }
    }

    // What the part at record i fits, each stretch seen from its own start.
    pub(crate) fn own(&self, i: usize) -> &'a Table
        requires { Part self.now 16 Shape i }
        ensures { Shows result.now (fitting self.now i) Own (length (line self.now)) (length (line self.now)) }
    {
        &self.kept.entries[i].own
    }
}

impl<'a> Iterator for Places<'a> {
    type Item = usize;

    ghost next_gives = { YieldsFirst ahead };

    ghost remaining = { item_count ahead };

    fn next(&mut self) -> Option<usize> {
        let others = self.count.checked_sub(1)?;
        let part = self.at;
        self.at = self.walk.after(part);
        self.count = others;
        Some(part)
    }
}
