//! Writing: a bound query as a text.

ghost use Rattle.std.specs.Prelude.{◌≡◌, length, take};
ghost use Rattle.std.specs.Result.{result_err};
ghost use Rattle.alphabet.specs.Symbols.{names_of};
ghost use Rattle.text.specs.Written.{write_fault, write_answer, written_out, WrittenBack};

use crate::sheet::{first_records, is_short};
use crate::{BoundShape, WriteFault};
use alphabet::Alphabet;
use query::{Node, Stage, is_query};
use writer::put_all;

// Refuses a short sheet, a buffer of too few bytes, and records that are no query bound by such an alphabet.
fn check(
    records: &[Node],
    sheet: &[Node],
    alphabet: &Alphabet,
    bytes: usize,
) -> Result<(), WriteFault>
    ensures { result_err result ≡ write_fault (names_of alphabet.now) records.now (length sheet.now) bytes }
{
    if is_short(sheet) {
        return Err(WriteFault::Sheet);
    }
    if bytes < 4096 {
        return Err(WriteFault::Buffer);
    }
    if !is_query(records, Stage::Bound(alphabet.symbols())) {
        return Err(WriteFault::Records);
    }
    Ok(())
}

/// Writes the bound query in the sheet as a text, with the names of the alphabet, and tells how many bytes it has.
pub fn write(
    bound: &BoundShape,
    sheet: &[Node],
    alphabet: &Alphabet,
    out: &mut [u8],
) -> Result<usize, WriteFault>
    ensures answer { result ≡ write_answer (names_of alphabet.now) (take bound.now.records sheet.now) (length sheet.now) (length out.old) }
    ensures out { out.new ≡ written_out result (names_of alphabet.now) (take bound.now.records sheet.now) out.old }
    ensures back { WrittenBack result (names_of alphabet.now) (take bound.now.records sheet.now) out.new }
{
    let records = first_records(sheet, bound.records);
    check(records, sheet, alphabet, out.len())?;
    Ok(put_all(out, records, alphabet))
}
