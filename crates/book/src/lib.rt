//! Run books: lists of at most 255 words, one for each step, that tell how long a symbol is carried.

#![tactic(auto)]

ghost use Rattle.std.specs.Prelude.{◌≡◌, ℕ, ◌^◌, ◌<◌, ◌≤◌, List, [], length, slice_index};
ghost use Rattle.book.specs.Words.{roomy, added, droppable, dropped, marked, run_from, RunLongest};

mod row;
mod run;
mod sheet;
mod table;

pub use sheet::WordSheet;
pub use table::RunTable;

/// A run book means a list of words, at most 255 of them and each of 32 bits. Code over any book
/// knows what stands here and nothing else.
///
/// Any symbol and any step may be asked for. `mark` and `run` leave the list as it is, and take
/// the book to change all the same, since a book may keep an account of what it is asked.
pub trait RunBook {
    // `add`, `drop_last` and `mark` answer bool: the rule of the project is that a book says yes or no.
    /// The list that the book means.
    ghost words: { Self → List ℕ };

    /// Makes the list empty.
    fn empty(&mut self)
        ensures { words self.new ≡ [] };

    /// Puts a word at the end, or answers no where 255 are held.
    fn add(&mut self, word: u32) -> bool
        ensures answer { result ≡ roomy (words self.old) }
        ensures after { words self.new ≡ added (words self.old) word };

    /// Takes off the last word, or answers no where there is none.
    fn drop_last(&mut self) -> bool
        ensures answer { result ≡ droppable (words self.old) }
        ensures after { words self.new ≡ dropped (words self.old) };

    /// How many words there are.
    fn size(&self) -> usize
        ensures { result ≡ length (words self.now) };

    /// Whether there is a word for the step and it has the symbol.
    fn mark(&mut self, symbol: u8, step: usize) -> bool
        ensures answer { result ≡ marked (words self.old) symbol step }
        ensures same { words self.new ≡ words self.old };

    /// How many words from the step on, one after another, have the symbol.
    fn run(&mut self, symbol: u8, step: usize) -> usize
        ensures answer { result ≡ run_from (words self.old) symbol step }
        ensures same { words self.new ≡ words self.old };

    ghost short: { (b : Self) → length (words b) ≤ 255 };

    ghost narrow: { (b : Self) (t : ℕ) → slice_index (words b) t < 2 ^ 32 };
}

/// That a run is the longest: it answers nothing, and its contract is the law.
pub fn run_is_longest()
    ensures { RunLongest }
{}
