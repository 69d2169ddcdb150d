//! What is done with a list.

ghost use Rattle.std.specs.Prelude.{◌≡◌, ◌≤◌, ◌<◌, ◌++◌, ◌∷◌, [], length, ◌-◌, take, slice_get, slice_set};
ghost use Rattle.fixed.specs.Items.{listed, room_for, with_one_more};

use crate::{Full, List};

impl<T: Copy, const N: usize> List<T, N> {
    /// An empty list, whose places hold copies of the filler.
    pub fn new(filler: T) -> List<T, N>
        ensures { listed result ≡ [] }
    {
        List {
            cells: [filler; N],
            count: 0,
        }
    }

    /// How many items there are.
    pub fn len(&self) -> usize
        ensures count { result ≡ length (listed self.now) }
        ensures few { result ≤ N }
    {
        self.as_slice().len()
    }

    /// Takes off all items.
    pub fn clear(&mut self)
        ensures { listed self.new ≡ [] }
    {
        self.count = 0;
    }

    /// Puts an item at the end.
    pub fn push(&mut self, item: T)
        requires { length (listed self.old) < N }
        ensures { listed self.new ≡ listed self.old ++ item ∷ [] }
    {
        self.cells[self.count] = item;
        self.count += 1;
    }

    /// Puts an item at the end, where there is room.
    pub fn try_push(&mut self, item: T) -> Result<(), Full>
        ensures answer { result ≡ room_for N (listed self.old) }
        ensures after { listed self.new ≡ with_one_more N (listed self.old) item }
    {
        if self.count == N {
            return Err(Full);
        }
        self.push(item);
        Ok(())
    }

    /// Takes off the last item, where there is one.
    pub fn pop(&mut self) -> Option<T>
        ensures answer { result ≡ slice_get (listed self.old) (length (listed self.old) - 1) }
        ensures after { listed self.new ≡ take (length (listed self.old) - 1) (listed self.old) }
    {
        if self.count == 0 {
            return None;
        }
        self.count -= 1;
        Some(self.cells[self.count])
    }

    /// Puts an item in place of the one at an index.
    pub fn put(&mut self, at: usize, item: T)
        requires { at < length (listed self.old) }
        ensures { listed self.new ≡ slice_set (listed self.old) at item }
    {
        self.cells[at] = item;
    }

    /// The items.
    pub fn as_slice(&self) -> &[T]
        ensures items { result.now ≡ listed self.now }
        ensures few { length result.now ≤ N }
    {
        &self.cells[..self.count]
    }
}
