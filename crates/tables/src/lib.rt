//! Tables of stretches, and how they are joined.

#![tactic(auto)]

ghost use Rattle.std.specs.Prelude.{◌≡◌, ℕ, ◌<◌, ◌≤◌, Bool, true, false, ◌&&◌, ◌||◌, length, if◌then◌else◌, Decides, ◌==◌, nat_eq, nat_le};
ghost use Rattle.shape.specs.Ranges.{inside};
ghost use Rattle.ends.specs.Member.{member, Finds};
ghost use Rattle.tables.specs.Holds.{holds, Held, Joined, Links, Rising};

use ends::Ends;

mod table;

pub use table::Table;

impl Table {
    /// No stretch.
    pub fn empty() -> Table
        ensures { (a b : ℕ) → holds result a b ≡ false }
    {
        Table {
            rows: [Ends::empty(); 256],
        }
    }

    /// Whether the stretch is in the table.
    pub fn contains(&self, a: u8, b: u8) -> bool
        ensures { result ≡ holds self.now a b }
    {
        self.row(a).contains(b)
    }

    /// Puts the stretch into the table.
    pub fn insert(&mut self, a: u8, b: u8)
        ensures { (x y : ℕ) → holds self.new x y ≡ ((x == a && y == b) || holds self.old x y) }
    {
        self.rows[usize::from(a)].insert(b);
    }

    /// The ends of the stretches that begin at a position.
    pub fn row(&self, start: u8) -> Ends
        ensures { (k : ℕ) → member result k ≡ holds self.now start k }
    {
        self.rows[usize::from(start)]
    }

    /// Has the stretches that begin at a end at these positions.
    pub fn put(&mut self, a: u8, row: Ends)
        ensures { (x y : ℕ) → holds self.new x y ≡ (if nat_eq x a then member row y else holds self.old x y) }
    {
        self.rows[usize::from(a)] = row;
    }

    /// The first end at b or right of it of a stretch that begins at a.
    pub fn next_in(&self, a: u8, b: usize) -> Option<u8>
        ensures { Finds (holds self.now a) b result }
    {
        self.rows[usize::from(a)].next_from(b)
    }

    /// Adds the stretches of the other table.
    pub fn union_with(&mut self, other: &Table)
        ensures { (x y : ℕ) → holds self.new x y ≡ (holds self.old x y || holds other.now x y) }
    {
        for (x, row) in self.rows.iter_mut().enumerate() {
            row.union_with(&other.rows[x]);
        }
    }

    /// The stretches that are not null.
    pub fn rising(&self) -> Table
        ensures { (a b : ℕ) → Decides (holds result a b) ((a < b) × (b < 256) × Held self.now a b) }
    {
        let mut rows = self.rows;
        for (start, row) in rows.iter_mut().enumerate() {
            row.keep_right(start as u8);
        }
        Table { rows }
    }

    /// Where the stretches end that begin at one of the starts.
    pub fn after(&self, starts: &Ends) -> Ends
        ensures { (b : ℕ) → Decides (member result b) ((c : ℕ) × (member starts.now c ≡ true) × Held self.now c b) }
    {
        let mut all = Ends::empty();
        // By hand: the iterator over the starts is slower where rows have few ends.
        let mut next = starts.next_from(0);
        while let Some(c) = next {
            let start = usize::from(c);
            all.union_with(&self.rows[start]);
            next = starts.next_from(start + 1);
        }
        all
    }

    /// A stretch of this table, and from its end one of the later table.
    pub fn then(&self, later: &Table) -> Table
        ensures { (a b : ℕ) → Decides (holds result a b) (Joined (Held self.now) (Held later.now) a b) }
    {
        let mut rows = [Ends::empty(); 256];
        for (a, row) in rows.iter_mut().enumerate() {
            *row = later.after(&self.rows[a]);
        }
        Table { rows }
    }

    /// The null stretches at the positions up to n.
    pub fn still(n: u8) -> Table
        ensures { (a b : ℕ) → Decides (holds result a b) ((a ≤ n) × (a ≡ b)) }
    {
        let mut out = Table::empty();
        for a in 0..=n {
            out.insert(a, a);
        }
        out
    }

    /// So many stretches one after another, from one of the positions up to n.
    pub fn power(&self, times: u8, n: u8) -> Table
        ensures { (a b : ℕ) → Decides (holds result a b) ((a ≤ n) × Links (Held self.now) times a b) }
    {
        let mut out = Table::still(n);
        let mut base = *self;
        let mut left = times;
        while left > 1 {
            if left % 2 == 1 {
                out = out.then(&base);
            }
            left /= 2;
            base = base.then(&base);
        }
        if left == 1 {
            out = out.then(&base);
        }
        out
    }

    /// Any number of stretches one after another, from one of the positions up to n. None of them is null.
    pub fn closure(&self, n: u8) -> Table
        requires { Rising self.now n }
        ensures { (a b : ℕ) → Decides (holds result a b) ((a ≤ n) × ((k : ℕ) × Links (Held self.now) k a b)) }
    {
        let mut out = Table::empty();
        for a in (0..=n).rev() {
            let mut row = out.after(&self.rows[usize::from(a)]);
            row.insert(a);
            out.put(a, row);
        }
        out
    }

    /// Where stretches end.
    pub fn reached(&self) -> Ends
        ensures { (b : ℕ) → Decides (member result b) ((a : ℕ) × Held self.now a b) }
    {
        let mut all = Ends::empty();
        for row in &self.rows {
            all.union_with(row);
        }
        all
    }

    /// The positions up to n where no stretch begins.
    pub fn resting(&self, n: u8) -> Ends
        ensures { (b : ℕ) → Decides (member result b) ((b ≤ n) × ((y : ℕ) → y < 256 → Held self.now b y → ⊥)) }
    {
        let mut all = Ends::empty();
        for b in 0..=n {
            if self.next_in(b, 0).is_none() {
                all.insert(b);
            }
        }
        all
    }

    /// How many stretches lie inside (a, b), where none is null, and of the positions from a on `within` has those up to b.
    pub fn inside(&self, a: u8, b: u8, within: &Ends) -> usize
        requires up { a ≤ b }
        requires rising { (x y : ℕ) → Held self.now x y → x < y }
        requires ends { (k : ℕ) → a ≤ k → k < 256 → member within.now k ≡ nat_le k b }
        ensures count { result ≡ length (inside (holds self.now) a b) }
        ensures small { result ≤ 65536 }
    {
        let mut total = 0;
        for x in a..b {
            let mut row = self.row(x);
            row.keep(within);
            total += row.len();
        }
        total
    }
}
