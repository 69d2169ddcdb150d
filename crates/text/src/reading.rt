//! Reading: a text into the records of the query that it spells.

ghost use Rattle.std.specs.Prelude.{◌≡◌, ℕ, ◌<◌, ◌≤◌, true, ◌↔◌, List, length, replicate, is_ok, Result};
ghost use Rattle.query.specs.Stands.{blank};
ghost use Rattle.text.specs.Reading.{reading, answered, left_in};
ghost use Rattle.text.specs.Promise.{Means, Readable};

use crate::sheet::is_short;
use crate::{ReadFault, ReadShape};
use parser::parse;
use query::Node;

// Blanks all records of the sheet.
fn clear(sheet: &mut [Node])
    ensures { sheet.new ≡ replicate (length sheet.old) blank }
{
    sheet.fill(Node::blank());
}

/// Reads a text into the lent sheet: the records of the query that it spells, and blank ones behind them.
pub fn read(text: &[u8], sheet: &mut [Node]) -> Result<ReadShape, ReadFault>
    ensures answer { result ≡ answered (reading text.now (length sheet.old)) }
    ensures sheet { sheet.new ≡ left_in (reading text.now (length sheet.old)) sheet.old }
    ensures right { Means result text.now sheet.old sheet.new }
    ensures only { (other : Result ReadShape ReadFault) (after : List Node) → Means other text.now sheet.old after → (other ≡ result) × (after ≡ sheet.new) }
    ensures accepts { (is_ok result ≡ true) ↔ Readable text.now (length sheet.old) }
{
    if is_short(sheet) {
        return Err(ReadFault::Sheet);
    }
    let parsed = parse(text);
    clear(sheet);
    let machine = parsed?;
    let records = machine.records();
    sheet[..records.len()].copy_from_slice(records);
    Ok(ReadShape {
        records: records.len(),
    })
}
