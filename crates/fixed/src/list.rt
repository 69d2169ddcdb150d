//! A list in fixed memory.

ghost use Rattle.std.specs.Prelude.{◌≡◌, ◌≤◌, length, ⊤};

use std::alloc::AllocError;

/// At most `N` items, which lie in the value itself.
pub struct List<T, const N: usize> {
    pub(crate) cells: [T; N],
    pub(crate) count: usize,
    ghost whole: { length cells ≡ N },
    ghost within: { count ≤ N },
}

impl<T: Copy, const N: usize> Copy for List<T, N> {}

impl<T: Copy, const N: usize> Clone for List<T, N> {
    ghost is_clone = { λ x y. y ≡ x };

    ghost is_infallible = { λ _. ⊤ };

    fn clone(&self) -> Result<List<T, N>, AllocError> {
        Ok(*self)
    }
}
