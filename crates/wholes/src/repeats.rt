//! The table of a repeat.

ghost use Rattle.std.specs.Prelude.{◌≡◌, ℕ, ◌-◌, ◌<◌, ◌≤◌, Bool, true, false, Decides};
ghost use Rattle.shape.specs.Fits.{Rule};
ghost use Rattle.ends.specs.Member.{member};
ghost use Rattle.tables.specs.Holds.{Held};
ghost use Rattle.wholes.specs.declared.view.View.TheVariants.{Own};
ghost use Rattle.wholes.specs.Shows.{repeated, Shows, Later, Stops, Row};

use crate::view::{Many, View};
use ends::Ends;
use tables::Table;

/// What may follow the first piece of a repeat, from the table of its part, each stretch seen from its own start.
pub fn later(own: &Table, many: Many, n: u8) -> Table
    requires { (x y : ℕ) → Held own.now x y → y ≤ n }
    ensures { (P : Rule) → Shows own.now P Own n n → Later result P many n }
{
    let piece = own.rising();
    match many {
        Many::Exactly(0) | Many::AtMost(0) => Table::empty(),
        Many::Exactly(k) => piece.power(k - 1, n),
        Many::AtLeast(k) => piece.power(k.saturating_sub(1), n).then(&piece.closure(n)),
        Many::AtMost(k) => {
            let mut either = Table::still(n);
            either.union_with(&piece);
            either.power(k - 1, n)
        }
    }
}

/// The positions from which no piece goes on.
pub fn stops(own: &Table, n: u8) -> Ends
    ensures { (P : Rule) → Shows own.now P Own n n → Stops result P n }
{
    own.rising().resting(n)
}

// The stretches of a repeat that begin at a, where no opening piece ends at a.
fn repeat_row(first: &Table, reached: &Ends, later: &Table, stops: &Ends, null: bool, a: u8) -> Ends
    ensures { (b : ℕ) → Decides (member result b) ((member reached.now a ≡ false) × Row first.now later.now stops.now null a b) }
{
    if reached.contains(a) {
        return Ends::empty();
    }
    let mut row = later.after(&first.row(a));
    if null {
        row.insert(a);
    }
    row.keep(stops);
    row
}

/// A repeat: a first piece of the opening table that no piece comes before, what may follow it, and a stop.
// Out of line: else a walk that calls it has these tables on the stack at each of its levels.
#[inline(never)]
pub fn repeat(opening: &Table, later: &Table, stops: &Ends, many: Many, view: View, to: u8) -> Table
    ensures { (P : Rule) (n : ℕ) → to ≤ n → n < 256 → Shows opening.now P view to n → Later later.now P many n → Stops stops.now P n → Shows result (repeated n P many) view to n }
{
    let first = opening.rising();
    let reached = match view {
        View::From(_) => first.reached(),
        View::Own => Ends::empty(),
    };
    let null = many.allows(0);
    let mut out = Table::empty();
    for a in view.lowest()..=usize::from(to) {
        let a = a as u8;
        out.put(a, repeat_row(&first, &reached, later, stops, null, a));
    }
    out
}
