//! A run book that keeps the runs of each symbol.

ghost use Rattle.std.specs.Prelude.{◌≡◌, ℕ, ◌+◌, ◌<◌, ◌≤◌, [], length};
ghost use Rattle.word.specs.Words.{has};
ghost use Rattle.book.specs.Runs.{Pushed, Popped};
ghost use Rattle.book.specs.Tables.{runs_of, Formed, table_words};
ghost use Rattle.book.specs.Words.{run_from};
ghost use Rattle.book.specs.TablesLemmas as Tables;

use crate::RunBook;
use crate::row::Row;
use word::carries;

/// A row of runs for each symbol, so that a symbol that stays costs one run however long it stays.
///
/// `add` and `drop_last` look at the newest run of each symbol. `mark` and `run` look at the runs of
/// their symbol alone, from the newest back to the first that begins no later than the step: at
/// most 128. `empty` writes the whole table anew.
#[derive(Drop)]
pub struct RunTable {
    rows: [Row; 32],
    size: u8,
    ghost short: { size ≤ 255 },
    ghost long: { length rows ≡ 32 },
    ghost formed: { Formed size rows },
}

impl RunTable {
    pub fn new() -> RunTable
        ensures { table_words result.rows result.size ≡ [] }
    {
        RunTable {
            rows: [Row::new(); 32],
            size: 0,
        }
    }

    /// The run of the symbol from the step on. Symbols above 31 have no row and no runs.
    fn left(&self, symbol: u8, step: usize) -> usize
        ensures { result ≡ run_from (table_words self.now.rows self.now.size) symbol step }
    {
        self.rows
            .get(usize::from(symbol))
            .map_or(0, |row| row.run(step))
    }
}

impl RunBook for RunTable {
    ghost words = { λ b. table_words b.rows b.size };

    ghost short = { λ b. Tables.short b.rows b.size b.short };

    ghost narrow = { λ b. Tables.narrow b.rows b.size };

    fn empty(&mut self) {
        *self = RunTable::new();
    }

    #[tactic(auto, using(crate::specs::TablesLemmas::size_is))]
    fn add(&mut self, word: u32) -> bool {
        if self.size == u8::MAX {
            return false;
        }
        for (symbol, row) in self.rows.iter_mut().enumerate() {
            row.push(self.size, carries(word, symbol as u8));
        }
        self.size += 1;
        true
    }

    fn drop_last(&mut self) -> bool {
        if self.size == 0 {
            return false;
        }
        self.size -= 1;
        for row in self.rows.iter_mut() {
            row.pop(self.size);
        }
        true
    }

    #[tactic(auto, using(crate::specs::TablesLemmas::size_is))]
    fn size(&self) -> usize {
        usize::from(self.size)
    }

    #[tactic(auto, using(crate::specs::Longest::marked_run))]
    fn mark(&mut self, symbol: u8, step: usize) -> bool {
        self.left(symbol, step) > 0
    }

    fn run(&mut self, symbol: u8, step: usize) -> usize {
        self.left(symbol, step)
    }
}
