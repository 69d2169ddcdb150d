//! The rule that applies to a whole, if one does.

ghost use Rattle.std.specs.Prelude.{◌≡◌, true, not, ◌&&◌, is_some, nat_lt};
ghost use Rattle.query.specs.Stands.{at as recordAt};
ghost use Rattle.rules.specs.Applies.{gathers};
ghost use Rattle.query.specs.Kinds.{same_kind as sameKind};
ghost use Rattle.query.specs.declared.node.Kind.TheVariants.{Concat};
ghost use Rattle.tidy.specs.Changes.{strict, Alone, Joining, Changes, nested_become};

use crate::change::Change;
use crate::outcome::Outcome;
use crate::pairs::is_unordered;
use crate::part::Part;
use crate::search::{find_pair, find_part, pair_outcome};
use crate::wanted::Wanted;
use query::{Kind, Node};

// Whether the kind is any, concat, and, or.
fn is_gathering(kind: Kind) -> bool
    ensures { result ≡ gathers kind }
{
    kind == Kind::Concat || is_unordered(kind)
}

// Whether the kind is exact or atleast.
fn is_strict(kind: Kind) -> bool
    ensures { result ≡ strict kind }
{
    matches!(kind, Kind::Exact | Kind::Atleast)
}

// What a rule makes of two of the parts of a whole.
fn joining_change(part: Part) -> Option<Change>
    requires gathers { gathers (recordAt part.records.now part.at).kind ≡ true }
    ensures { Joining part.entry.records.now part.entry.at result }
{
    let whole = part.node().kind;
    let (x, y) = find_pair(whole, part.parts())?;
    match pair_outcome(whole, x, y)? {
        Outcome::Joined(head) => Some(Change::Join {
            earlier: x.at,
            later: y.at,
            head,
        }),
        Outcome::Dead => Some(Change::Clear),
    }
}

// Whether a concat with such a part that fits nothing, if it has one, fits nothing.
fn clears(whole: Kind, empty: Option<Part>) -> bool
    ensures { result ≡ (sameKind whole Concat && is_some empty.entry) }
{
    whole == Kind::Concat && empty.is_some()
}

// What a rule makes of an any, concat, and, or.
fn gathering_change(part: Part) -> Option<Change>
    requires gathers { gathers (recordAt part.records.now part.at).kind ≡ true }
    ensures { Changes part.entry.records.now part.entry.at result }
{
    let node = part.node();
    if node.parts == 1 {
        return Some(Change::Lift);
    }
    if let Some(inner) = find_part(part.parts(), Wanted::Like(node.kind)) {
        return Some(Change::Unnest(inner.at));
    }
    let empty = find_part(part.parts(), Wanted::Empty);
    if clears(node.kind, empty) {
        return Some(Change::Clear);
    }
    joining_change(part)
}

// Whether a repeat with this record has pieces and is seen alike from everywhere.
fn is_alone(node: Node, window: bool) -> bool
    ensures { result ≡ (strict node.kind && (nat_lt 0 node.number && not window)) }
{
    is_strict(node.kind) && node.number > 0 && !window
}

// Whether the part is an exact or atleast with pieces and without a window.
fn stands_alone(part: Part) -> bool
    ensures { Alone part.entry.records.now part.entry.at result }
{
    is_alone(part.node(), part.has_window())
}

// What becomes of so many of a part that is a repeat or not, and stands alone or not.
fn nested(number: u8, repeat: bool, alone: bool) -> Option<Change>
    ensures { result ≡ nested_become number repeat alone }
{
    match number {
        0 => None,
        1 => alone.then_some(Change::Lift),
        _ => repeat.then_some(Change::Clear),
    }
}

// What a rule makes of an exact or atleast.
fn repeat_change(part: Part) -> Option<Change>
    requires strict { strict (recordAt part.records.now part.at).kind ≡ true }
    ensures { Changes part.entry.records.now part.entry.at result }
{
    let (inner, _) = part.parts().split_first()?;
    let repeat = inner.node().kind.is_repeat();
    nested(part.node().number, repeat, stands_alone(inner))
}

// What a rule makes of a query.
pub(crate) fn find_change(part: Part) -> Option<Change>
    ensures { Changes part.entry.records.now part.entry.at result }
{
    let kind = part.node().kind;
    if is_gathering(kind) {
        return gathering_change(part);
    }
    if is_strict(kind) {
        return repeat_change(part);
    }
    None
}
