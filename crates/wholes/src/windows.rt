//! Windows: where they begin, and the table of them.

ghost use Rattle.std.specs.Prelude.{◌≡◌, ℕ, ◌+◌, ◌<◌, ◌≤◌, Bool, true, Decides};
ghost use Rattle.shape.specs.Fits.{Rule};
ghost use Rattle.ends.specs.Member.{member};
ghost use Rattle.wholes.specs.declared.view.View.TheVariants.{From};
ghost use Rattle.wholes.specs.Shows.{counting, windowed, Shows, Starts};

use crate::view::{Many, View};
use ends::Ends;
use tables::Table;

/// The positions from `low` up to `high`.
pub fn range(low: usize, high: u8) -> Ends
    ensures { (k : ℕ) → Decides (member result k) ((low ≤ k) × (k ≤ high)) }
{
    let mut out = Ends::empty();
    for k in low..=usize::from(high) {
        out.insert(k as u8);
    }
    out
}

/// The positions at which windows begin that have so many stretches of the table inside.
pub fn counted(table: &Table, many: Many, s: u8, len: u8, to: u8) -> Ends
    requires { s + len ≤ to }
    ensures { (P : Rule) (n : ℕ) → Shows table.now P (From s) to n → Starts result (counting P many) (From s) len to }
{
    let rising = table.rising();
    let mut within = range(usize::from(s), s + len);
    let mut out = Ends::empty();
    for a in s..=to - len {
        within.insert(a + len);
        if many.allows(rising.inside(a, a + len, &within)) {
            out.insert(a);
        }
    }
    out
}

/// The windows of a length that begin at these positions.
pub fn shifted(starts: &Ends, len: usize, to: u8) -> Table
    requires { (a : ℕ) → member starts.now a ≡ true → a + len ≤ to }
    ensures { (Q : Rule) (v : View) (n : ℕ) → to ≤ n → Starts starts.now Q v len to → Shows result (windowed Q len) v to n }
{
    let mut out = Table::empty();
    for a in 0..=to {
        if starts.contains(a) {
            out.insert(a, (usize::from(a) + len) as u8);
        }
    }
    out
}
