//! Two parts of a whole that a rule speaks of.

ghost use Rattle.std.specs.Prelude.{◌≡◌};
ghost use Rattle.rules.specs.Applies.{unordered, merges_to};
ghost use Rattle.rules.specs.Parts.{merged_kind, merged_number};
ghost use Rattle.tidy.specs.Outcomes.{neighbours_become, alternatives_become, become};

use crate::head::Head;
use crate::outcome::Outcome;
use query::Kind;

// Whether the kind is any, and, or.
pub(crate) fn is_unordered(kind: Kind) -> bool
    ensures { result ≡ unordered kind }
{
    matches!(kind, Kind::Any | Kind::And | Kind::Or)
}

// Behind a repeat, another of the same part goes if it may be null; otherwise both fit nothing.
fn neighbours(earlier: Head, later: Head) -> Outcome
    ensures { Some result ≡ neighbours_become earlier.kind earlier.number later.kind later.number }
{
    if later.kind == Kind::Atmost || later.number == 0 {
        Outcome::Joined(earlier)
    } else {
        Outcome::Dead
    }
}

// Whether two repeats of one part make one, in this order.
fn make_one(x: Head, y: Head) -> bool
    ensures { result ≡ merges_to x.kind x.number y.kind y.number }
{
    let (n, m) = (x.number as u16, y.number as u16);
    match x.kind {
        Kind::Exact => match y.kind {
            Kind::Atleast => m <= n + 1,
            Kind::Atmost => n <= m + 1,
            _ => false,
        },
        Kind::Atleast => matches!(y.kind, Kind::Atleast),
        Kind::Atmost => match y.kind {
            Kind::Atleast => n + 1 >= m,
            Kind::Atmost => true,
            _ => false,
        },
        _ => false,
    }
}

// What two repeats of one part become that make one.
fn made_one(x: Head, y: Head) -> Head
    ensures { result ≡ record { kind = merged_kind x.kind y.kind; number = merged_number x.kind x.number y.kind y.number } }
{
    let atleast = x.kind == Kind::Atleast || y.kind == Kind::Atleast;
    let atmost = x.kind == Kind::Atmost || y.kind == Kind::Atmost;
    let (kind, number) = match (atleast, atmost) {
        (true, true) => (Kind::Atleast, 0),
        (true, false) => (Kind::Atleast, x.number.min(y.number)),
        (false, _) => (Kind::Atmost, x.number.max(y.number)),
    };
    Head { kind, number }
}

// Two repeats of one part in an any.
fn alternatives(x: Head, y: Head) -> Option<Outcome>
    ensures { result ≡ alternatives_become x.kind x.number y.kind y.number }
{
    if make_one(x, y) || make_one(y, x) {
        Some(Outcome::Joined(made_one(x, y)))
    } else {
        None
    }
}

// What becomes of two parts of a whole where a rule speaks of them, from their heads and whether their own parts are equal.
pub(crate) fn outcome(whole: Kind, x: Head, y: Head, same_parts: bool) -> Option<Outcome>
    ensures { result ≡ become whole x.kind x.number y.kind y.number same_parts }
{
    if !same_parts {
        return None;
    }
    if is_unordered(whole) && x == y {
        return Some(Outcome::Joined(x));
    }
    if !x.kind.is_repeat() || !y.kind.is_repeat() {
        return None;
    }
    match whole {
        Kind::Concat => Some(neighbours(x, y)),
        Kind::Any => alternatives(x, y),
        _ => None,
    }
}
