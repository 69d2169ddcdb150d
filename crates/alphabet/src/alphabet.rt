//! An alphabet: the names of its symbols and the bounds that a step must keep to carry them.

ghost use Rattle.std.specs.Prelude.{◌≡◌, ◌≤◌, true, length};
ghost use Rattle.fixed.specs.Items.{listed};
ghost use Rattle.alphabet.specs.Carrying.{bounds_right};
ghost use Rattle.alphabet.specs.Every.{every};
ghost use Rattle.alphabet.specs.Names.{may_name, all_distinct};
ghost use Rattle.alphabet.specs.Spelling.{spellings, bounds_in};

use crate::symbol::Symbol;
use fixed::List;

/// One to 32 symbols, each by its index.
#[derive(Clone, Copy)]
pub struct Alphabet {
    pub(crate) symbols: List<Symbol, 32>,
    ghost counted: { (1 ≤ length (listed symbols)) × (length (listed symbols) ≤ 32) },
    ghost bounded: { every bounds_right (bounds_in (listed symbols)) ≡ true },
    ghost named: { every may_name (spellings (listed symbols)) ≡ true },
    ghost distinct: { all_distinct (spellings (listed symbols)) ≡ true },
}
