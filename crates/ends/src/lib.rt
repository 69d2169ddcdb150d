//! Sets of positions, as the bits of four numbers.

#![tactic(auto)]

ghost use Rattle.std.specs.Prelude.{◌≡◌, ℕ, ◌<◌, Bool, false, ◌&&◌, ◌||◌, ◌==◌, nat_lt};
ghost use Rattle.ends.specs.Member.{member, tally, Finds};
ghost use Rattle.ends.specs.Positions.{left, members};

mod positions;

pub use positions::Positions;

/// A set of the positions 0 to 255.
#[derive(Clone, Copy)]
pub struct Ends {
    bits: [u64; 4],
}

impl Ends {
    /// No position.
    pub fn empty() -> Ends
        ensures { (k : ℕ) → member result k ≡ false }
    {
        Ends { bits: [0; 4] }
    }

    /// Whether the position is in the set.
    pub fn contains(&self, b: u8) -> bool
        ensures { result ≡ member self.now b }
    {
        (self.bits[usize::from(b / 64)] >> (b % 64)) % 2 == 1
    }

    /// Puts the position into the set.
    pub fn insert(&mut self, b: u8)
        ensures { (k : ℕ) → member self.new k ≡ (k == b || member self.old k) }
    {
        self.bits[usize::from(b / 64)] |= 1 << (b % 64);
    }

    // `union_with` and `keep` differ in an operator alone; a closure for it would make both longer.

    /// Adds the positions of the other set.
    pub fn union_with(&mut self, other: &Ends)
        ensures { (k : ℕ) → member self.new k ≡ (member self.old k || member other.now k) }
    {
        for (w, word) in self.bits.iter_mut().enumerate() {
            *word |= other.bits[w];
        }
    }

    /// Leaves only the positions that are in the other set too.
    pub fn keep(&mut self, other: &Ends)
        ensures { (k : ℕ) → member self.new k ≡ (member self.old k && member other.now k) }
    {
        for (w, word) in self.bits.iter_mut().enumerate() {
            *word &= other.bits[w];
        }
    }

    /// Leaves only the positions right of b, up to 255.
    pub fn keep_right(&mut self, b: u8)
        ensures { (k : ℕ) → member self.new k ≡ ((nat_lt b k && nat_lt k 256) && member self.old k) }
    {
        let own = usize::from(b / 64);
        for (w, word) in self.bits.iter_mut().enumerate() {
            if w < own {
                *word = 0;
            } else if w == own {
                *word = (*word >> (b % 64)) / 2 * 2 << (b % 64);
            }
        }
    }

    /// How many positions are in the set.
    pub fn len(&self) -> usize
        ensures { result ≡ tally 256 0 (member self.now) }
    {
        // A loop: of the words of a chain the proof does not know that each has 64 bits.
        let mut total = 0;
        for word in &self.bits {
            total += word.count_ones() as usize;
        }
        total
    }

    /// The lowest position of the set at b or above it.
    pub fn next_from(&self, b: usize) -> Option<u8>
        ensures { Finds (member self.now) b result }
    {
        let own = b / 64;
        if own >= 4 {
            return None;
        }
        let rest = self.bits[own] >> (b % 64);
        if rest != 0 {
            return Some((b + rest.trailing_zeros() as usize) as u8);
        }
        // By index, since the answer is made of it.
        for w in own + 1..4 {
            if self.bits[w] != 0 {
                return Some((64 * w + self.bits[w].trailing_zeros() as usize) as u8);
            }
        }
        None
    }

    /// The positions of the set, the lowest first.
    pub fn iter(&self) -> Positions<'_>
        ensures { left result ≡ members self.now }
    {
        Positions { ends: self, at: 0 }
    }
}

impl<'a> IntoIterator for &'a Ends {
    type Item = u8;

    type IntoIter = Positions<'a>;

    ghost into_iter_gives = { λ e r. left r ≡ members e.now };

    fn into_iter(self) -> Positions<'a> {
        self.iter()
    }
}
