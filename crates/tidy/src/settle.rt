//! Rules applied until none applies any more.

ghost use Rattle.rules.specs.Places.{KeptWithin};
ghost use Rattle.tidy.specs.Edits.{Steps};
ghost use Rattle.tidy.specs.Promise.{Settles};

use crate::edits::make;
use crate::part::Part;
use crate::rule::find_change;
use query::Node;

// Applies one rule in the query at index i, in its parts first. Where none applies, the index after the query.
fn step(sheet: &mut [Node], i: usize, levels: u8) -> Option<usize>
    requires kept { KeptWithin levels sheet.old i }
    ensures { Steps levels sheet.old sheet.new i result }
{
    let parts = sheet[i].parts;
    let mut next = i + 1;
    // Plain recursion with the levels left falling is a rule of the project; an iterator could not lend the sheet for changes.
    for k in 0..parts {
        next = step(sheet, next, levels - 1)?;
    }
    match find_change(Part {
        records: sheet,
        at: i,
    }) {
        Some(change) => {
            make(sheet, i, change);
            None
        }
        None => Some(next),
    }
}

// Applies rules until none applies any more, and tells how many records are left.
pub(crate) fn settle(sheet: &mut [Node]) -> usize
    requires kept { KeptWithin 16 sheet.old 0 }
    ensures { Settles sheet.old sheet.new result }
{
    loop {
        if let Some(end) = step(sheet, 0, 16) {
            return end;
        }
    }
}
