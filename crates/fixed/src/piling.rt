//! What is done with a stack.

ghost use Rattle.std.specs.Prelude.{◌≡◌, ◌≤◌, ◌<◌, ◌∷◌, [], length, drop, slice_get};
ghost use Rattle.fixed.specs.Items.{piled};

use crate::Stack;

impl<T: Copy, const N: usize> Stack<T, N> {
    /// An empty stack, whose places hold copies of the filler.
    pub fn new(filler: T) -> Stack<T, N>
        ensures { piled result ≡ [] }
    {
        Stack {
            cells: [filler; N],
            free: N,
        }
    }

    /// How many items there are.
    pub fn len(&self) -> usize
        ensures count { result ≡ length (piled self.now) }
        ensures few { result ≤ N }
    {
        N - self.free
    }

    /// Takes off all items.
    pub fn clear(&mut self)
        ensures { piled self.new ≡ [] }
    {
        self.free = N;
    }

    /// Puts an item on top.
    pub fn push(&mut self, item: T)
        requires { length (piled self.old) < N }
        ensures { piled self.new ≡ item ∷ piled self.old }
    {
        self.free -= 1;
        self.cells[self.free] = item;
    }

    /// Takes off the newest item, where there is one.
    pub fn pop(&mut self) -> Option<T>
        ensures answer { result ≡ slice_get (piled self.old) 0 }
        ensures after { piled self.new ≡ drop 1 (piled self.old) }
    {
        if self.free == N {
            return None;
        }
        let newest = self.cells[self.free];
        self.free += 1;
        Some(newest)
    }

    /// The newest item, where there is one.
    pub fn top(&self) -> Option<T>
        ensures { result ≡ slice_get (piled self.now) 0 }
    {
        if self.free == N {
            None
        } else {
            Some(self.cells[self.free])
        }
    }

    /// Puts an item in place of the newest.
    pub fn turn(&mut self, item: T)
        requires { 0 < length (piled self.old) }
        ensures { piled self.new ≡ item ∷ drop 1 (piled self.old) }
    {
        let newest = self.free;
        self.cells[newest] = item;
    }

    /// The items, the newest first.
    pub fn as_slice(&self) -> &[T]
        ensures items { result.now ≡ piled self.now }
        ensures few { length result.now ≤ N }
    {
        let cells = &self.cells[..];
        &cells[self.free..]
    }
}
