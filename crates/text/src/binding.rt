//! Binding: each name of a query that was read becomes the symbol of an alphabet.

ghost use Rattle.std.specs.Prelude.{◌≡◌, true, length, take, is_ok};
ghost use Rattle.std.specs.Result.{result_err};
ghost use Rattle.alphabet.specs.Symbols.{names_of};
ghost use Rattle.text.specs.Binding.{word_at, symbol_of, bound, name_fault, unknown, unbound, bind_fault, bound_sheet};
ghost use Rattle.text.specs.Faults.{bind_number, bind_returned};
ghost use Rattle.text.specs.Bound.{bind_answer, bind_sheet};
ghost use Rattle.query.specs.declared.node.Stage.TheVariants.{Bound};
ghost use Rattle.query.specs.Stands.{is_query as isQuery};

use crate::sheet::{first_records, is_short};
use crate::{BindFault, BoundShape, ReadShape};
use alphabet::Alphabet;
use query::{Kind, Node, Stage, is_query};
use refusal::Refusal;

/// A query that was not bound: its shape as it was, and why.
#[derive(Drop)]
pub struct Unbound {
    pub read: ReadShape,
    pub fault: BindFault,
}

impl Refusal for Unbound {
    ghost number = { λ unbound. bind_number unbound.fault };

    ghost returned = { λ unbound. bind_returned unbound.fault };

    fn number(&self) -> u8 {
        self.fault.number()
    }

    fn returned(&self) -> usize {
        self.fault.returned()
    }
}

// A text, and the alphabet that its names are looked up in.
#[derive(Clone, Copy)]
struct Names<'a> {
    text: &'a [u8],
    alphabet: &'a Alphabet,
}

impl Names<'_> {
    // The word of a record, as far as it lies in the text.
    fn word(&self, node: Node) -> &[u8]
        ensures { result.now ≡ word_at self.now.text.now node }
    {
        let size = self.text.len();
        &self.text[size.min(usize::from(node.place))..size.min(node.word_end())]
    }

    // The symbol that a record's word names.
    fn symbol_of(&self, node: Node) -> Option<u8>
        ensures { result ≡ symbol_of (names_of self.now.alphabet.now) self.now.text.now node }
    {
        self.alphabet.find(self.word(node))
    }

    // The record with the symbol of its name.
    fn bound(&self, node: Node) -> Node
        ensures { result ≡ bound (names_of self.now.alphabet.now) self.now.text.now node }
    {
        if node.kind != Kind::Symbol {
            return node;
        }
        match self.symbol_of(node) {
            Some(number) => Node { number, ..node },
            None => node,
        }
    }

    // Refuses a name that is not in the alphabet.
    fn check_name(&self, node: Node) -> Result<(), BindFault>
        ensures { result_err result ≡ name_fault (names_of self.now.alphabet.now) self.now.text.now node }
    {
        if node.kind == Kind::Symbol && self.symbol_of(node).is_none() {
            return Err(BindFault::Name {
                place: node.place,
                length: node.length,
            });
        }
        Ok(())
    }

    // Refuses the first name that is not in the alphabet.
    fn check_names(&self, records: &[Node]) -> Result<(), BindFault>
        ensures { result_err result ≡ unknown (names_of self.now.alphabet.now) self.now.text.now records.now }
    {
        for node in records {
            self.check_name(*node)?;
        }
        Ok(())
    }

    // Refuses records that are no query that was read from the text, or that have a name that is not in the alphabet.
    fn check(&self, records: &[Node]) -> Result<(), BindFault>
        ensures { result_err result ≡ unbound (names_of self.now.alphabet.now) self.now.text.now records.now }
    {
        if !is_query(records, Stage::Read(self.text.len())) {
            return Err(BindFault::Records);
        }
        self.check_names(records)
    }

    // Refuses a short sheet, or one whose first records are not bound.
    fn check_sheet(&self, sheet: &[Node], count: usize) -> Result<(), BindFault>
        ensures { result_err result ≡ bind_fault (names_of self.now.alphabet.now) self.now.text.now count sheet.now }
    {
        if is_short(sheet) {
            return Err(BindFault::Sheet);
        }
        self.check(first_records(sheet, count))
    }

    // Writes the symbol of each name into its record, in the first records of the sheet.
    fn bind(&self, sheet: &mut [Node], count: usize)
        ensures { sheet.new ≡ bound_sheet (names_of self.now.alphabet.now) self.now.text.now count sheet.old }
    {
        let end = count.min(sheet.len());
        for node in &mut sheet[..end] {
            *node = self.bound(*node);
        }
    }
}

/// Binds the query that was read into the sheet from the text: each symbol's record gets the number of its name in the alphabet.
pub fn bind(
    read: ReadShape,
    sheet: &mut [Node],
    text: &[u8],
    alphabet: &Alphabet,
) -> Result<BoundShape, Unbound>
    ensures answer { result ≡ bind_answer read (bind_fault (names_of alphabet.now) text.now read.records sheet.old) }
    ensures sheet { sheet.new ≡ bind_sheet (bind_fault (names_of alphabet.now) text.now read.records sheet.old) (names_of alphabet.now) text.now read.records sheet.old }
    ensures bound { is_ok result ≡ true → isQuery (Bound (length (names_of alphabet.now))) (take read.records sheet.new) ≡ true }
{
    let names = Names { text, alphabet };
    let records = read.records;
    names
        .check_sheet(sheet, records)
        .map_err(|fault| Unbound { read, fault })?;
    names.bind(sheet, records);
    Ok(BoundShape { records })
}
