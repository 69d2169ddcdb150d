//! The shapes that a query passes through: read from a text, then bound by an alphabet.

ghost use Rattle.std.specs.Prelude.{◌≡◌, ◌≤◌, min, true, length, take, IfOk};
ghost use Rattle.std.specs.Result.{result_map_both};
ghost use Rattle.query.specs.declared.node.Stage.TheVariants.{Bound};
ghost use Rattle.query.specs.Stands.{is_query as isQuery};
ghost use Rattle.text.specs.Held.{records_held};

use crate::SheetFault;
use crate::sheet::{first_records, is_short};
use query::{Node, Stage, is_query};

/// A query that was read from a text: how many records it takes up. It can only be bound.
#[derive(Drop)]
pub struct ReadShape {
    pub(crate) records: usize,
}

// Alike, and still no one generic type: two moved types of plain numbers are a rule of the project.

/// A query that was bound by an alphabet: how many records it takes up.
#[derive(Drop)]
pub struct BoundShape {
    pub(crate) records: usize,
}

impl ReadShape {
    /// How many records the query takes up.
    pub fn count(&self) -> usize
        ensures { result ≡ self.now.records }
    {
        self.records
    }
}

impl BoundShape {
    /// How many records the query takes up.
    pub fn count(&self) -> usize
        ensures { result ≡ self.now.records }
    {
        self.records
    }

    /// The records of the query in the sheet, where the sheet holds such a query, bound by so many symbols.
    pub fn records_in<'a>(&self, sheet: &'a [Node], symbols: u8) -> Result<&'a [Node], SheetFault>
        ensures answer { result_map_both (λ x. x.now) (λ e. e) result ≡ records_held symbols self.now.records sheet.now }
        ensures few { IfOk result (λ x. self.now.records ≤ 64) }
        ensures whole { IfOk result (λ x. x.now ≡ take self.now.records sheet.now) }
        ensures bound { IfOk result (λ x. isQuery (Bound symbols) x.now ≡ true) }
    {
        if is_short(sheet) {
            return Err(SheetFault::Short);
        }
        let records = first_records(sheet, self.records);
        if self.records > 64 || !is_query(records, Stage::Bound(symbols)) {
            return Err(SheetFault::Unbound);
        }
        Ok(records)
    }

    /// Keeps only the first so many of its records, where it has more.
    pub fn shorten(&mut self, records: usize)
        ensures { self.new.records ≡ min records self.old.records }
    {
        self.records = records.min(self.records);
    }
}
