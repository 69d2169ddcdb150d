//! What is seen of queries where they lie: where one ends, its parts one by one, and whether two have equal parts.

ghost use Rattle.std.specs.Prelude.{◌≡◌, ◌+◌, true, List, take, drop};
ghost use Rattle.std.specs.List.{list_all, zip};
ghost use Rattle.std.specs.Iterator.{YieldsFirstBy, item_count};
ghost use Rattle.query.specs.Stands.{at as recordAt};
ghost use Rattle.query.specs.Tree.{Query, alike_each};
ghost use Rattle.query.specs.declared.node.Node.{Node as Record};
ghost use Rattle.rules.specs.Applies.{parts_of};
ghost use Rattle.rules.specs.Places.{Here, stand_first, size_first, inner as innerOf, same_inner, same_record as sameRecord, any_window};
ghost use Rattle.tidy.specs.Outcomes.{reach as reaches};
ghost use Rattle.tidy.specs.Rows.{place, places_of, SplitsOff};

use crate::part::{Part, Row};
use query::{Kind, Node};

// Whether the records have one kind, one number and as many parts.
pub(crate) fn same_record(x: Node, y: Node) -> bool
    ensures { result ≡ sameRecord x y }
{
    (x.kind, x.number, x.parts) == (y.kind, y.number, y.parts)
}

// Whether the records of so many queries at the head of the one list are the same, one by one, as those at the head of the other, as far as both go.
fn same_first(parts: u8, xs: &[Node], ys: &[Node]) -> bool
    requires stand { stand_first parts xs.now ≡ true }
    ensures { result ≡ list_all (λ p. sameRecord p.0 p.1) (zip (take (size_first parts xs.now) xs.now) (take (size_first parts ys.now) ys.now)) }
{
    let mut left = usize::from(parts);
    for (x, y) in xs.iter().zip(ys) {
        if left == 0 {
            return true;
        }
        if !same_record(*x, *y) {
            return false;
        }
        left = left - 1 + usize::from(x.parts);
    }
    true
}

impl<'a> Part<'a> {
    // Its own record.
    pub(crate) fn node(self) -> Node
        ensures { result ≡ recordAt self.entry.records.now self.entry.at }
    {
        self.records[self.at]
    }

    // The index after it.
    pub(crate) fn end(self) -> usize
        ensures { result ≡ self.entry.at + size_first 1 (drop self.entry.at self.entry.records.now) }
    {
        let mut left: usize = 1;
        for next in self.at..self.records.len() {
            left = left - 1 + self.records[next].parts as usize;
            if left == 0 {
                return next + 1;
            }
        }
        self.records.len()
    }

    // The records behind its own.
    fn behind(self) -> &'a [Node]
        ensures { result.now ≡ drop (self.entry.at + 1) self.entry.records.now }
    {
        &self.records[self.at + 1..]
    }

    // The records of its parts.
    fn inner(self) -> &'a [Node]
        ensures { result.now ≡ innerOf self.entry.records.now self.entry.at }
    {
        &self.records[self.at + 1..self.end()]
    }

    // Its parts.
    pub(crate) fn parts(self) -> Row<'a>
        ensures records { result.records.now ≡ self.entry.records.now }
        ensures first { result.at ≡ self.entry.at + 1 }
        ensures count { result.count ≡ (recordAt self.entry.records.now self.entry.at).parts }
    {
        Row {
            records: self.records,
            at: self.at + 1,
            count: self.node().parts,
        }
    }

    // Whether there is a window inside.
    pub(crate) fn has_window(self) -> bool
        ensures { result ≡ any_window (innerOf self.entry.records.now self.entry.at) }
    {
        self.inner().iter().any(|n| n.kind == Kind::In)
    }

    // Whether the other has equal parts, wherever their words lie.
    pub(crate) fn same_parts(self, other: Part) -> bool
        ensures inner { result ≡ same_inner self.entry.records.now self.entry.at other.entry.records.now other.entry.at }
        ensures alike { (q r : Query) (rest last : List Record) → Here self.entry.records.now self.entry.at q rest → Here other.entry.records.now other.entry.at r last → result ≡ alike_each (parts_of q) (parts_of r) }
    {
        let parts = self.node().parts;
        parts == other.node().parts && same_first(parts, self.behind(), other.behind())
    }
}

// How many of the parts behind one may be joined with it: in a concat only the next.
fn reach(whole: Kind, left: u8) -> u8
    ensures { result ≡ reaches whole left }
{
    match whole {
        Kind::Concat => left.min(1),
        _ => left,
    }
}

impl<'a> Row<'a> {
    // The first, and the others behind it.
    pub(crate) fn split_first(self) -> Option<(Part<'a>, Row<'a>)>
        ensures { SplitsOff self.entry result }
    {
        if self.count == 0 {
            return None;
        }
        let first = Part {
            records: self.records,
            at: self.at,
        };
        let others = Row {
            records: self.records,
            at: first.end(),
            count: self.count - 1,
        };
        Some((first, others))
    }

    // Those that may be joined with a part of the whole that stands before them.
    pub(crate) fn within(self, whole: Kind) -> Row<'a>
        ensures records { result.records.now ≡ self.entry.records.now }
        ensures first { result.at ≡ self.entry.at }
        ensures count { result.count ≡ reaches whole self.entry.count }
    {
        Row {
            records: self.records,
            at: self.at,
            count: reach(whole, self.count),
        }
    }
}

impl<'a> Iterator for Row<'a> {
    type Item = Part<'a>;

    ghost next_gives = { YieldsFirstBy place places_of };

    ghost remaining = { item_count places_of };

    fn next(&mut self) -> Option<Part<'a>> {
        let (first, others) = self.split_first()?;
        *self = others;
        Some(first)
    }
}
