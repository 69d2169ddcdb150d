//! The words of a line's steps, held for a look at each of them.

#![tactic(auto)]

ghost use Rattle.std.specs.Prelude.{◌≡◌, ◌≤◌, [], length, slice_index};
ghost use Rattle.word.specs.Words.{has};
ghost use Rattle.steps.specs.Meaning.{steps_of, room_left, with_step};

mod full;

use fixed::List;
pub use full::Full;

/// The words of at most 255 steps, in order.
#[derive(Clone, Copy)]
pub struct Steps {
    words: List<u32, 255>,
}

impl Steps {
    /// No steps.
    #[tactic(auto, unfolding(crate::specs::Meaning::steps_of))]
    pub fn new() -> Steps
        ensures { steps_of result ≡ [] }
    {
        Steps {
            words: List::new(0),
        }
    }

    /// Adds the word of a step at the end, where there is room.
    #[tactic(auto, unfolding(crate::specs::Meaning::steps_of))]
    pub fn push(&mut self, word: u32) -> Result<(), Full>
        ensures answer { result ≡ room_left (steps_of self.old) }
        ensures after { steps_of self.new ≡ with_step (steps_of self.old) word }
    {
        self.words.try_push(word)?;
        Ok(())
    }

    /// How many steps there are.
    #[tactic(auto, unfolding(crate::specs::Meaning::steps_of))]
    pub fn len(&self) -> usize
        ensures length { result ≡ length (steps_of self.now) }
        ensures few { result ≤ 255 }
    {
        self.words.len()
    }

    /// Whether there is a step a and its word has the symbol.
    #[tactic(auto, using(word::proofs::Bits::has_none), unfolding(crate::specs::Meaning::steps_of))]
    pub fn carries(&self, a: usize, symbol: u8) -> bool
        ensures { result ≡ has (slice_index (steps_of self.now) a) symbol }
    {
        self.words
            .as_slice()
            .get(a)
            .is_some_and(|word| word::carries(*word, symbol))
    }
}
