//! The sheet of records that a query is lent.

ghost use Rattle.std.specs.Prelude.{◌≡◌, length, take, nat_lt};

use query::Node;

// Whether the sheet has fewer records than a query may take up.
pub(crate) fn is_short(sheet: &[Node]) -> bool
    ensures { result ≡ nat_lt (length sheet.now) 64 }
{
    sheet.len() < 64
}

// The first so many records of the sheet. A shape never has more than there are, which its type does not say.
pub(crate) fn first_records(sheet: &[Node], count: usize) -> &[Node]
    ensures { result.now ≡ take count sheet.now }
{
    &sheet[..count.min(sheet.len())]
}
