//! The search for parts that a rule speaks of.

ghost use Rattle.std.specs.Prelude.{◌≡◌, is_some};
ghost use Rattle.std.specs.Option.{option_map};
ghost use Rattle.std.specs.List.{find};
ghost use Rattle.query.specs.Stands.{at as recordAt};
ghost use Rattle.tidy.specs.Rows.{place, places_of};
ghost use Rattle.tidy.specs.Searches.{wants_record, pair_at, LieBoth, Pairs};

use crate::head::Head;
use crate::outcome::Outcome;
use crate::pairs::outcome;
use crate::part::{Part, Row};
use crate::wanted::Wanted;
use query::{Kind, Node};

// Whether a part with this record is wanted.
fn is_wanted(wanted: Wanted, node: Node) -> bool
    ensures { result ≡ wants_record wanted node }
{
    match wanted {
        Wanted::Like(kind) => kind == node.kind,
        Wanted::Empty => node.kind == Kind::Any && node.parts == 0,
    }
}

// The first wanted part.
pub(crate) fn find_part<'a>(mut parts: Row<'a>, wanted: Wanted) -> Option<Part<'a>>
    ensures { option_map place result ≡ find (λ p. wants_record wanted (recordAt p.0 p.1)) (places_of parts.entry) }
{
    parts.find(|p| is_wanted(wanted, p.node()))
}

// A record's kind and number.
fn head(node: Node) -> Head
    ensures { result ≡ record { kind = node.kind; number = node.number } }
{
    Head {
        kind: node.kind,
        number: node.number,
    }
}

// What becomes of two parts of a whole, where a rule speaks of them.
pub(crate) fn pair_outcome(whole: Kind, x: Part, y: Part) -> Option<Outcome>
    ensures { result ≡ pair_at whole (place x.entry) (place y.entry) }
{
    outcome(whole, head(x.node()), head(y.node()), x.same_parts(y))
}

// The first of the parts that a rule joins with the one before them.
fn find_partner<'a>(whole: Kind, x: Part, mut parts: Row<'a>) -> Option<Part<'a>>
    ensures { option_map place result ≡ find (λ y. is_some (pair_at whole (place x.entry) y)) (places_of parts.entry) }
{
    parts.find(|y| pair_outcome(whole, x, *y).is_some())
}

// The first two of the parts that a rule joins.
pub(crate) fn find_pair<'a>(whole: Kind, parts: Row<'a>) -> Option<(Part<'a>, Part<'a>)>
    ensures lie { LieBoth parts.entry.records.now result }
    ensures pair { Pairs whole parts.entry.records.now parts.entry.count parts.entry.at (option_map (λ p. (p.0.at, p.1.at)) result) }
{
    let mut row = parts;
    while let Some((x, behind)) = row.split_first() {
        if let Some(y) = find_partner(whole, x, behind.within(whole)) {
            return Some((x, y));
        }
        row = behind;
    }
    None
}
