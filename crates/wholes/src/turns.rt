//! Parts that are placed one after another, each as early as it can be.

ghost use Rattle.std.specs.Prelude.{◌≡◌, ℕ, ◌+◌, ◌<◌, ◌≤◌, None, Decides, slice_index_or};
ghost use Rattle.ends.specs.Member.{member};
ghost use Rattle.wholes.specs.Turns.{at, Earliest};

use crate::reach::Reach;
use ends::Ends;
use tables::Table;

impl Reach {
    /// Nothing is placed yet: each position reaches itself.
    pub fn start() -> Reach
        ensures { (a : ℕ) → a < 256 → at result a ≡ a }
    {
        let mut ends = [None; 256];
        for (a, end) in ends.iter_mut().enumerate() {
            *end = Some(a as u8);
        }
        Reach { ends }
    }

    /// For each position the first end of a stretch of the table that begins there or right of it.
    pub fn earliest(table: &Table) -> Reach
        ensures { (x : ℕ) → x ≤ 256 → Earliest table.now x (at result x) }
    {
        let mut reached = Ends::empty();
        let mut ends = [None; 256];
        for x in (0..=255).rev() {
            reached.union_with(&table.row(x));
            ends[usize::from(x)] = reached.next_from(0);
        }
        Reach { ends }
    }

    /// One more part is placed after what is reached.
    pub fn advance(&self, part: &Reach) -> Reach
        ensures { (a : ℕ) → a < 256 → at result a ≡ at part.now (at self.now a) }
    {
        let mut ends = [None; 256];
        for (from, end) in ends.iter_mut().enumerate() {
            *end = self.ends[from].and_then(|c| part.reached_from(c));
        }
        Reach { ends }
    }

    // What is reached from a position.
    fn reached_from(&self, a: u8) -> Option<u8>
        ensures { result ≡ slice_index_or self.now.ends a None }
    {
        self.ends[usize::from(a)]
    }

    /// The positions from which all is placed within so many steps.
    pub fn within(&self, s: u8, len: u8, to: u8) -> Ends
        requires { s + len ≤ to }
        ensures { (a : ℕ) → Decides (member result a) ((s ≤ a) × (a + len ≤ to) × (at self.now a ≤ a + len)) }
    {
        let mut out = Ends::empty();
        for a in s..=to - len {
            let last = a + len;
            if self.reached_from(a).is_some_and(|end| end <= last) {
                out.insert(a);
            }
        }
        out
    }
}
