//! Which stretches each record of a query fits.

ghost use Rattle.std.specs.Prelude.{◌≡◌, ℕ, ◌+◌, ◌≤◌, true, length};
ghost use Rattle.query.specs.declared.node.Role.TheVariants.{Shape, Window};
ghost use Rattle.query.specs.Stands.{at};
ghost use Rattle.shape.specs.Fits.{one_of, sequence};
ghost use Rattle.wholes.specs.declared.view.View.TheVariants.{From, Own};
ghost use Rattle.wholes.specs.Shows.{windowed, repeated, Starts};
ghost use Rattle.walk.specs.Walk.{repeats, many_of as manyOf};
ghost use Rattle.walk.specs.Seeing.{line, fitting, fittings, Query, Part, Parts, Seen};

use crate::many::many_of;
use crate::sight::{Sight, Windows};
use ends::Ends;
use query::Kind;
use tables::Table;
use wholes::View;

impl<'a> Sight<'a> {
    // What the part at record i fits: from what is kept where each stretch is seen from its own start, else by going down.
    #[cycle(walk)]
    fn part(&self, i: usize, levels: u8) -> Table
        requires { Part self.now.walk levels Shape i }
        ensures { Seen self.now result (fitting self.now.walk i) }
    {
        match self.view {
            View::From(_) => self.seen(i, levels),
            View::Own => *self.walk.own(i),
        }
    }

    /// What the query at record i fits.
    // The wholes stay out of line: a symbol, the most frequent record, then pays for none of their tables.
    #[cycle(walk)]
    pub fn seen(&self, i: usize, levels: u8) -> Table
        requires { Query self.now.walk levels Shape i }
        ensures { Seen self.now result (fitting self.now.walk i) }
    {
        let node = self.walk.records[i];
        match node.kind {
            Kind::Symbol => wholes::symbol(self.walk.steps, node.number, self.view, self.to),
            Kind::Any => self.any(i + 1, node.parts, levels - 1),
            Kind::Concat => self.concat(i + 1, node.parts, levels - 1),
            Kind::In => self.window(i + 1, node.number, levels - 1),
            _ => self.repeat(i, levels - 1),
        }
    }

    // One of the parts.
    #[cycle(walk)]
    #[inline(never)]
    fn any(&self, first: usize, parts: u8, levels: u8) -> Table
        requires { Parts self.now.walk levels Shape parts first }
        ensures { Seen self.now result (one_of (fittings self.now.walk parts first)) }
    {
        let mut out = Table::empty();
        for part in self.walk.parts(first, parts) {
            out.union_with(&self.part(part, levels));
        }
        out
    }

    // The parts in sequence: the first as it is seen, each later one from its own start.
    #[cycle(walk)]
    #[inline(never)]
    fn concat(&self, first: usize, parts: u8, levels: u8) -> Table
        requires stand { Parts self.now.walk levels Shape parts first }
        requires some { 1 ≤ parts }
        ensures { Seen self.now result (sequence (fittings self.now.walk parts first)) }
    {
        let mut out = self.part(first, levels);
        for part in self.walk.parts(self.walk.after(first), parts - 1) {
            out = out.then(self.walk.own(part));
        }
        out
    }

    // The repeat at record i: its first piece as it is seen, and what may follow it.
    #[cycle(walk)]
    #[inline(never)]
    fn repeat(&self, i: usize, levels: u8) -> Table
        requires repeats { repeats (at self.now.walk.records.now i).kind ≡ true }
        requires stands { Part self.now.walk levels Shape (i + 1) }
        ensures { Seen self.now result (repeated (length (line self.now.walk)) (fitting self.now.walk (i + 1)) (manyOf (at self.now.walk.records.now i).kind (at self.now.walk.records.now i).number)) }
    {
        let many = many_of(self.walk.records[i]);
        let opening = self.part(i + 1, levels);
        let kept = &self.walk.kept.entries[i];
        wholes::repeat(&opening, &kept.later, &kept.stops, many, self.view, self.to)
    }

    // The windows of a length of which the condition at record i holds.
    #[cycle(walk)]
    #[inline(never)]
    fn window(&self, i: usize, len: u8, levels: u8) -> Table
        requires { Part self.now.walk levels Window i }
        ensures { Seen self.now result (windowed (fitting self.now.walk i) len) }
    {
        wholes::shifted(&self.starts(i, len, levels), usize::from(len), self.to)
    }

    // The starts of the windows of a length of which the condition at record i holds.
    #[cycle(walk)]
    fn starts(&self, i: usize, len: u8, levels: u8) -> Ends
        requires { Part self.now.walk levels Window i }
        ensures { Starts result (fitting self.now.walk i) self.now.view len self.now.to }
    {
        match self.view {
            View::From(s) => self.starts_from(i, s, len, levels),
            View::Own => self.own_starts(i, len, levels),
        }
    }

    // These starts seen from s.
    #[cycle(walk)]
    fn starts_from(&self, i: usize, s: usize, len: u8, levels: u8) -> Ends
        requires stands { Part self.now.walk levels Window i }
        requires low { s ≤ self.now.to }
        ensures { Starts result (fitting self.now.walk i) (From s) len self.now.to }
    {
        let to = usize::from(self.to);
        if s + usize::from(len) > to {
            return Ends::empty();
        }
        let windows = Windows {
            walk: self.walk,
            s: s as u8,
            len,
            to: self.to,
        };
        windows.starts(i, levels)
    }

    // These starts, each window seen from its own start.
    #[cycle(walk)]
    fn own_starts(&self, i: usize, len: u8, levels: u8) -> Ends
        requires { Part self.now.walk levels Window i }
        ensures { Starts result (fitting self.now.walk i) Own len self.now.to }
    {
        let mut out = Ends::empty();
        if len > self.to {
            return out;
        }
        for a in 0..=self.to - len {
            let window = Windows {
                walk: self.walk,
                s: a,
                len,
                to: a + len,
            };
            if window.starts(i, levels).contains(a) {
                out.insert(a);
            }
        }
        out
    }
}
