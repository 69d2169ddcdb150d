//! Where the windows begin of which each condition of a query holds.

ghost use Rattle.std.specs.Prelude.{◌≡◌, ℕ};
ghost use Rattle.query.specs.declared.node.Role.TheVariants.{Shape, Window, Count};
ghost use Rattle.shape.specs.Fits.{one_of, all_of, one_after_another as in_turn};
ghost use Rattle.wholes.specs.Shows.{counting};
ghost use Rattle.walk.specs.Seeing.{fitting, fittings, Part, Parts, Begun};

use crate::many::many_of;
use crate::sight::{Sight, Windows};
use ends::Ends;
use query::Kind;
use wholes::{Many, Reach, View};

impl<'a> Windows<'a> {
    // The starts of the windows of which the condition at record i holds.
    #[cycle(walk)]
    pub(crate) fn starts(&self, i: usize, levels: u8) -> Ends
        requires { Part self.now.walk levels Window i }
        ensures { Begun self.now result (fitting self.now.walk i) }
    {
        let node = self.walk.records[i];
        match node.kind {
            Kind::And => self.all(i + 1, node.parts, levels - 1),
            Kind::Or => self.either(i + 1, node.parts, levels - 1),
            Kind::Inorder => self.in_order(i + 1, node.parts, levels - 1),
            _ => self.counted(i + 1, many_of(node), levels - 1),
        }
    }

    // The starts of the windows that have so many stretches of the part inside.
    #[cycle(walk)]
    fn counted(&self, i: usize, many: Many, levels: u8) -> Ends
        requires { Part self.now.walk levels Shape i }
        ensures { Begun self.now result (counting (fitting self.now.walk i) many) }
    {
        let sight = Sight {
            walk: self.walk,
            view: View::From(usize::from(self.s)),
            to: self.to,
        };
        wholes::counted(&sight.seen(i, levels), many, self.s, self.len, self.to)
    }

    // The starts of the windows of which all parts hold.
    // Apart from `either`: they share one line of a loop, and a closure for the rest would need longer clauses than the two.
    #[cycle(walk)]
    fn all(&self, first: usize, parts: u8, levels: u8) -> Ends
        requires { Parts self.now.walk levels Count parts first }
        ensures { Begun self.now result (all_of (fittings self.now.walk parts first)) }
    {
        let mut out = wholes::range(usize::from(self.s), self.to - self.len);
        for part in self.walk.parts(first, parts) {
            out.keep(&self.starts(part, levels));
        }
        out
    }

    // The starts of the windows of which one of the parts holds.
    #[cycle(walk)]
    fn either(&self, first: usize, parts: u8, levels: u8) -> Ends
        requires { Parts self.now.walk levels Count parts first }
        ensures { Begun self.now result (one_of (fittings self.now.walk parts first)) }
    {
        let mut out = Ends::empty();
        for part in self.walk.parts(first, parts) {
            out.union_with(&self.starts(part, levels));
        }
        out
    }

    // The starts of the windows in which the parts fit one after another.
    #[cycle(walk)]
    fn in_order(&self, first: usize, parts: u8, levels: u8) -> Ends
        requires { Parts self.now.walk levels Shape parts first }
        ensures { Begun self.now result (in_turn (fittings self.now.walk parts first)) }
    {
        let sight = Sight {
            walk: self.walk,
            view: View::From(usize::from(self.s)),
            to: self.to,
        };
        let mut reach = Reach::start();
        for part in self.walk.parts(first, parts) {
            reach = reach.advance(&Reach::earliest(&sight.seen(part, levels)));
        }
        reach.within(self.s, self.len, self.to)
    }
}
