//! Changes made in the sheet.

ghost use Rattle.std.specs.Prelude.{◌≡◌, ◌+◌, ◌-◌, ◌<◌, ◌≤◌, length};
ghost use Rattle.query.specs.Stands.{at as recordAt};
ghost use Rattle.rules.specs.Places.{Stands};
ghost use Rattle.tidy.specs.declared.change.Change.TheVariants.{Lift, Clear, Unnest, Join};
ghost use Rattle.tidy.specs.Edits.{cut_out, Makeable, Made};

use crate::change::Change;
use crate::head::Head;
use crate::part::Part;
use query::{Kind, Node};

// The records from one index up to another go, those behind them move up, and blanks fill the end.
pub(crate) fn cut(sheet: &mut [Node], from: usize, to: usize)
    requires order { from ≤ to }
    requires inside { to ≤ length sheet.old }
    ensures { sheet.new ≡ cut_out sheet.old from to }
{
    sheet.copy_within(to.., from);
    let kept = sheet.len() - (to - from);
    sheet[kept..].fill(Node::blank());
}

// The whole at index i gives way to its only part.
fn lift(sheet: &mut [Node], i: usize)
    requires inside { i < length sheet.old }
    ensures { Made sheet.old i Lift sheet.new }
{
    cut(sheet, i, i + 1);
}

// The whole at index i becomes `(any)`.
fn clear(sheet: &mut [Node], i: usize)
    requires stands { Stands sheet.old i }
    ensures { Made sheet.old i Clear sheet.new }
{
    let part = Part {
        records: sheet,
        at: i,
    };
    let end = part.end();
    let node = sheet[i];
    sheet[i] = Node {
        kind: Kind::Any,
        number: 0,
        parts: 0,
        ..node
    };
    cut(sheet, i + 1, end);
}

// The part at index j, of the whole at index i, gives way to its own parts.
fn unnest(sheet: &mut [Node], i: usize, j: usize)
    requires whole { i < length sheet.old }
    requires inner { j < length sheet.old }
    requires some { 1 ≤ (recordAt sheet.old i).parts }
    requires few { (recordAt sheet.old i).parts - 1 + (recordAt sheet.old j).parts ≤ 255 }
    ensures { Made sheet.old i (Unnest j) sheet.new }
{
    let node = sheet[i];
    let parts = node.parts - 1 + sheet[j].parts;
    sheet[i] = Node { parts, ..node };
    cut(sheet, j, j + 1);
}

// Of the whole at index i, the part at index y goes, and the part at index x takes this head.
fn join(sheet: &mut [Node], i: usize, x: usize, y: usize, head: Head)
    requires whole { i < length sheet.old }
    requires earlier { x < length sheet.old }
    requires later { Stands sheet.old y }
    requires some { 1 ≤ (recordAt sheet.old i).parts }
    ensures { Made sheet.old i (Join x y head) sheet.new }
{
    let part = Part {
        records: sheet,
        at: y,
    };
    let end = part.end();
    let (node, earlier) = (sheet[i], sheet[x]);
    let parts = node.parts - 1;
    sheet[i] = Node { parts, ..node };
    sheet[x] = Node {
        kind: head.kind,
        number: head.number,
        ..earlier
    };
    cut(sheet, y, end);
}

// Makes the change of the whole at index i.
pub(crate) fn make(sheet: &mut [Node], i: usize, change: Change)
    requires makeable { Makeable sheet.old i change }
    ensures { Made sheet.old i change sheet.new }
{
    match change {
        Change::Lift => lift(sheet, i),
        Change::Clear => clear(sheet, i),
        Change::Unnest(j) => unnest(sheet, i, j),
        Change::Join {
            earlier,
            later,
            head,
        } => join(sheet, i, earlier, later, head),
    }
}
