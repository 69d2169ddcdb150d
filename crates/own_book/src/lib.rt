//! A run book of one's own: the words lie on a pile, the newest on top.

#![tactic(auto)]

ghost use Rattle.std.specs.Prelude.{◌≡◌, ℕ, ◌^◌, ◌<◌, [], reverse, drop, length, slice_index};
ghost use Rattle.std.specs.List.{take_while};
ghost use Rattle.word.specs.Words.{has};
ghost use Rattle.fixed.specs.Items.{piled};
ghost use Rattle.own_book.specs.Piles.{pile_short, pile_narrow};

use book::RunBook;
use fixed::Stack;
use word::carries;

/// The words of the steps, the newest on top.
#[derive(Drop)]
pub struct Pile {
    words: Stack<u32, 255>,
    ghost narrow: { (i : ℕ) → slice_index (piled words) i < 2 ^ 32 },
}

/// The words from the step on, which lie in front of those before it.
#[tactic(auto, using(crate::specs::Piles::from_step))]
fn words_from(pile: &[u32], step: usize) -> &[u32]
    ensures { reverse result.now ≡ drop step (reverse pile.now) }
{
    &pile[..pile.len().saturating_sub(step)]
}

/// How many words, one after another, have the symbol.
fn run_of(pile: &[u32], symbol: u8) -> usize
    ensures { result ≡ length (take_while (λ word. has word symbol) (reverse pile.now)) }
{
    pile.iter()
        .rev()
        .take_while(|word| carries(**word, symbol))
        .count()
}

impl Pile {
    pub fn new() -> Pile
        ensures { reverse (piled result.words) ≡ [] }
    {
        Pile {
            words: Stack::new(0),
        }
    }
}

impl RunBook for Pile {
    ghost words = { λ b. reverse (piled b.words) };

    ghost short = { λ b. pile_short b.words };

    ghost narrow = { λ b. pile_narrow (piled b.words) b.narrow };

    fn empty(&mut self) {
        self.words.clear();
    }

    fn add(&mut self, word: u32) -> bool {
        if self.words.len() == 255 {
            return false;
        }
        self.words.push(word);
        true
    }

    fn drop_last(&mut self) -> bool {
        self.words.pop().is_some()
    }

    fn size(&self) -> usize {
        self.words.len()
    }

    fn mark(&mut self, symbol: u8, step: usize) -> bool {
        words_from(self.words.as_slice(), step)
            .last()
            .is_some_and(|word| carries(*word, symbol))
    }

    fn run(&mut self, symbol: u8, step: usize) -> usize {
        run_of(words_from(self.words.as_slice(), step), symbol)
    }
}

#[cfg(test)]
mod tests;
