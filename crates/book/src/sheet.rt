//! A run book with one word for each step.

ghost use Rattle.std.specs.Prelude.{◌≡◌, ℕ, ◌^◌, ◌<◌, [], length, drop, slice_index};
ghost use Rattle.std.specs.List.{take_while};
ghost use Rattle.word.specs.Words.{has};
ghost use Rattle.fixed.specs.Items.{listed};
ghost use Rattle.book.specs.Sheets.{short_listed};

use crate::RunBook;
use fixed::List;
use word::carries;

/// The words of the steps one after another. `run` looks at each word of the run and the one behind
/// it; every other call looks at one word at most.
#[derive(Drop)]
pub struct WordSheet {
    words: List<u32, 255>,
    ghost narrow: { (t : ℕ) → slice_index (listed words) t < 2 ^ 32 },
}

/// The words from the step on.
// A slice and no `skip`, which would go past each word before the step.
#[tactic(auto, using(std::proofs::lemmas::List::drop_min))]
fn words_from(words: &[u32], step: usize) -> &[u32]
    ensures { result.now ≡ drop step words.now }
{
    &words[step.min(words.len())..]
}

/// How many words from the step on, one after another, have the symbol.
fn run_of(words: &[u32], symbol: u8, step: usize) -> usize
    ensures { result ≡ length (take_while (λ word. has word symbol) (drop step words.now)) }
{
    words_from(words, step)
        .iter()
        .take_while(|word| carries(**word, symbol))
        .count()
}

impl WordSheet {
    pub fn new() -> WordSheet
        ensures { listed result.words ≡ [] }
    {
        WordSheet {
            words: List::new(0),
        }
    }
}

impl RunBook for WordSheet {
    ghost words = { λ b. listed b.words };

    ghost short = { λ b. short_listed b.words };

    ghost narrow = { λ b. b.narrow };

    fn empty(&mut self) {
        self.words.clear();
    }

    fn add(&mut self, word: u32) -> bool {
        self.words.try_push(word).is_ok()
    }

    fn drop_last(&mut self) -> bool {
        self.words.pop().is_some()
    }

    fn size(&self) -> usize {
        self.words.len()
    }

    fn mark(&mut self, symbol: u8, step: usize) -> bool {
        self.words
            .as_slice()
            .get(step)
            .is_some_and(|word| carries(*word, symbol))
    }

    fn run(&mut self, symbol: u8, step: usize) -> usize {
        run_of(self.words.as_slice(), symbol, step)
    }
}
