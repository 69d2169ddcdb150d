//! Which symbols a step carries.

ghost use Rattle.std.specs.Prelude.{◌≡◌};
ghost use Rattle.alphabet.specs.Carrying.{answers, carries, step_word};
ghost use Rattle.alphabet.specs.Symbols.{bounds_of};

use crate::{Alphabet, Asked, Bounds};
use value::Value;

impl Asked {
    /// Whether a value that is zero, or that is not, is one that is asked for.
    pub fn allows(self, zero: bool) -> bool
        ensures { result ≡ answers self zero }
    {
        match self {
            Asked::Anyvalue => true,
            Asked::Zero => zero,
            Asked::Nonzero => !zero,
        }
    }
}

impl Bounds {
    /// Whether a step carries the symbol, by its rank and by whether its first and its last value are zero.
    pub fn carried(&self, rank: i64, first: bool, last: bool) -> bool
        ensures { result ≡ carries self.now rank first last }
    {
        self.low <= rank && rank <= self.high && self.first.allows(first) && self.last.allows(last)
    }
}

impl Alphabet {
    /// The word of the step from one value to the next: bit j is set where the step carries symbol j.
    pub fn word<V: Value>(&self, first: &V, last: &V) -> u32
        ensures { result ≡ step_word (bounds_of self.now) (V.Value.rank first.now last.now) (V.Value.zero first.now) (V.Value.zero last.now) }
    {
        let rank = first.rank_to(last);
        let first_zero = first.is_zero();
        let last_zero = last.is_zero();
        let symbols = self.symbols.as_slice();
        let mut word = 0u32;
        for (j, symbol) in symbols.iter().enumerate() {
            if symbol.bounds.carried(rank, first_zero, last_zero) {
                word |= 1 << j;
            }
        }
        word
    }
}
