//! A stack in fixed memory.

ghost use Rattle.std.specs.Prelude.{◌≡◌, ◌≤◌, length, ⊤};

use std::alloc::AllocError;

/// At most `N` items, which lie in the value itself, behind the free places: the newest first.
pub struct Stack<T, const N: usize> {
    pub(crate) cells: [T; N],
    pub(crate) free: usize,
    ghost whole: { length cells ≡ N },
    ghost within: { free ≤ N },
}

impl<T: Copy, const N: usize> Copy for Stack<T, N> {}

impl<T: Copy, const N: usize> Clone for Stack<T, N> {
    ghost is_clone = { λ x y. y ≡ x };

    ghost is_infallible = { λ _. ⊤ };

    fn clone(&self) -> Result<Stack<T, N>, AllocError> {
        Ok(*self)
    }
}
