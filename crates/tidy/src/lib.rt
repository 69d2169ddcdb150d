//! Tidying: a query becomes one that says the same and that no rule can shorten.

#![tactic(auto)]

ghost use Rattle.std.specs.Prelude.{◌≡◌, ◌≤◌, ◌&&◌, length, take, None, Ok, nat_le};
ghost use Rattle.query.specs.Stands.{is_query as isQuery};
ghost use Rattle.query.specs.declared.node.Stage.TheVariants.{Bound};
ghost use Rattle.tidy.specs.Faults.{fault_number, fault_returned};
ghost use Rattle.std.specs.Option.{unwrap_or};
ghost use Rattle.std.specs.Result.{result_ok, result_err};
ghost use Rattle.tidy.specs.Promise.{refusal as refused, Answers};

mod change;
mod edits;
mod fault;
mod head;
mod outcome;
mod pairs;
mod part;
mod rule;
mod search;
mod settle;
mod walk;
mod wanted;

use edits::cut;
pub use fault::TidyFault;
use query::{Node, Stage, is_query};
use refusal::Refusal;
use settle::settle;
use text::BoundShape;

impl Refusal for TidyFault {
    ghost number = { fault_number };

    ghost returned = { fault_returned };

    fn number(&self) -> u8 {
        match self {
            TidyFault::Short => 6,
            TidyFault::Unbound => 14,
        }
    }

    fn returned(&self) -> usize {
        match self {
            TidyFault::Short => 64,
            TidyFault::Unbound => 0,
        }
    }
}

// Whether the first records of the sheet are a query, bound by at most 32 symbols.
fn is_bound(count: usize, sheet: &[Node]) -> bool
    requires room { 64 ≤ length sheet.now }
    ensures { result ≡ (nat_le count 64 && isQuery (Bound 32) (take count sheet.now)) }
{
    if count > 64 {
        return false;
    }
    is_query(&sheet[0..count], Stage::Bound(32))
}

// Whether the first `count` records of the sheet are tidied, or why they are not.
fn check(count: usize, sheet: &[Node]) -> Result<(), TidyFault>
    ensures { result_err result ≡ refused count sheet.now }
{
    if sheet.len() < 64 {
        return Err(TidyFault::Short);
    }
    if !is_bound(count, sheet) {
        return Err(TidyFault::Unbound);
    }
    Ok(())
}

// Tidies the query in the first `count` records of the sheet, which is not refused, and tells how many records it has then.
fn tidy_first(count: usize, sheet: &mut [Node]) -> usize
    requires ready { refused count sheet.old ≡ None }
    ensures { Answers count sheet.old sheet.new (Ok result) }
{
    let room = sheet.len();
    cut(sheet, count, room);
    settle(sheet)
}

// Tidies the query in the first `count` records of the sheet, and tells how many records it has then, or why it is not tidied.
// It takes a count, and no shape, since tests give it counts that no shape has.
fn tidy_records(count: usize, sheet: &mut [Node]) -> Result<usize, TidyFault>
    ensures { Answers count sheet.old sheet.new result }
{
    check(count, sheet)?;
    Ok(tidy_first(count, sheet))
}

/// Tidies the bound query in the sheet, and tells how many records it has then, which the shape follows. The records behind it are
/// blanked. The new query fits what the old one fits, on every line and seen from everywhere, and no rule applies to it.
pub fn tidy(shape: &mut BoundShape, sheet: &mut [Node]) -> Result<usize, TidyFault>
    ensures answer { Answers shape.old.records sheet.old sheet.new result }
    ensures shape { shape.new.records ≡ unwrap_or (result_ok result) shape.old.records }
{
    let count = tidy_records(shape.count(), sheet)?;
    shape.shorten(count);
    Ok(count)
}

#[cfg(test)]
mod tests;
