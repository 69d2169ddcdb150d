//! The table of a symbol.

ghost use Rattle.std.specs.Prelude.{ℕ, ◌≤◌, length};
ghost use Rattle.steps.specs.Meaning.{steps_of};
ghost use Rattle.wholes.specs.Shows.{carrying, Shows};

use crate::view::View;
use steps::Steps;
use tables::Table;

/// The steps that carry a symbol.
// Out of line, as the other wholes are: what goes down through a query then has one table less on the stack at each level.
#[inline(never)]
pub fn symbol(steps: &Steps, number: u8, view: View, to: u8) -> Table
    requires { to ≤ length (steps_of steps.now) }
    ensures { Shows result (carrying (steps_of steps.now) number) view to (length (steps_of steps.now)) }
{
    let mut out = Table::empty();
    for a in view.lowest()..usize::from(to) {
        if steps.carries(a, number) {
            out.insert(a as u8, a as u8 + 1);
        }
    }
    out
}
