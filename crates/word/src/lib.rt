//! The word of a step: the set of symbols that the step carries, as the bits of a number.

#![tactic(auto)]

ghost use Rattle.std.specs.Prelude.{◌≡◌};
ghost use Rattle.word.specs.Words.{has};

/// Whether the word has the symbol. No word has a symbol above 31.
#[tactic(auto, unfolding(crate::specs::Words::has))]
pub fn carries(word: u32, symbol: u8) -> bool
    ensures { result ≡ has word symbol }
{
    symbol < 32 && (word >> symbol) % 2 == 1
}
