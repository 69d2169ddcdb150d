//! The names of symbols.

ghost use Rattle.std.specs.Prelude.{◌≡◌, ◌≤◌, map, length, take};
ghost use Rattle.std.specs.Option.{option_map};
ghost use Rattle.alphabet.specs.Laws.{FoundWhereNamed, AllRight};
ghost use Rattle.alphabet.specs.Names.{is_among as isAmong, operator_words, index_of, name_at};
ghost use Rattle.alphabet.specs.Spelling.{spelling, spellings};
ghost use Rattle.alphabet.specs.Symbols.{names_of, bounds_of};

use crate::name::Name;
use crate::symbol::Symbol;
use crate::{Alphabet, Bounds};
use fixed::List;

// These are the words of grammar's `word_of`, which lies above: a list is plainer than a crate below both that has no more than it.
const OPERATORS: [&[u8]; 12] = [
    b"any",
    b"concat",
    b"exact",
    b"atleast",
    b"atmost",
    b"in",
    b"precisely",
    b"noless",
    b"nomore",
    b"and",
    b"or",
    b"inorder",
];

/// Whether the word is an operator word of the language. Such a word names no symbol.
#[tactic(auto, unfolding(crate::specs::Names::operator_words))]
pub fn is_operator(word: &[u8]) -> bool
    ensures { result ≡ isAmong operator_words word.now }
{
    OPERATORS.contains(&word)
}

impl Name {
    // The name of these letters, of the first sixteen if there are more.
    pub(crate) fn of(word: &[u8]) -> Name
        ensures { spelling result ≡ take 16 word.now }
    {
        let front = &word[..word.len().min(16)];
        let mut letters = List::new(0);
        for letter in front {
            letters.push(*letter);
        }
        Name { letters }
    }

    pub(crate) fn spelled(&self) -> &[u8]
        ensures { result.now ≡ spelling self.now }
    {
        self.letters.as_slice()
    }
}

impl Symbol {
    // A symbol with no letters, which fills the places of a list that are free.
    pub(crate) fn blank() -> Symbol {
        Symbol {
            name: Name::of(b""),
            bounds: Bounds::LEVEL,
        }
    }
}

// The index of the symbol of this name.
pub(crate) fn index_of(symbols: &[Symbol], word: &[u8]) -> Option<u8>
    requires { length symbols.now ≤ 32 }
    ensures { result ≡ index_of (spellings symbols.now) word.now }
{
    let at = symbols
        .iter()
        .position(|symbol| symbol.name.spelled() == word)?;
    Some(at as u8)
}

impl Alphabet {
    /// How many symbols there are, 1 to 32.
    pub fn symbols(&self) -> u8
        ensures names { result ≡ length (names_of self.now) }
        ensures rows { result ≡ length (bounds_of self.now) }
        ensures few { (1 ≤ result) × (result ≤ 32) }
    {
        self.symbols.len() as u8
    }

    /// The symbol of this name.
    pub fn find(&self, name: &[u8]) -> Option<u8>
        ensures { result ≡ index_of (names_of self.now) name.now }
    {
        index_of(self.symbols.as_slice(), name)
    }

    /// The letters of the symbol's name.
    pub fn name(&self, symbol: u8) -> Option<&[u8]>
        ensures { option_map (λ x. x.now) result ≡ name_at (names_of self.now) symbol }
    {
        let symbol = self.symbols.as_slice().get(symbol as usize)?;
        Some(symbol.name.spelled())
    }
}

/// A word is found at a symbol just where it is that symbol's name.
#[tactic(auto, using(crate::proofs::Distinct::found_named, crate::proofs::Distinct::named_found))]
pub fn found_where_named()
    ensures { FoundWhereNamed }
{}

/// Every alphabet that exists has 1 to 32 symbols, each with a name of its own and with bounds in order and in range.
pub fn all_right()
    ensures { AllRight }
{}
