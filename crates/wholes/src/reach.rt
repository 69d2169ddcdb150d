//! How far parts that are placed one after another reach.

ghost use Rattle.std.specs.Prelude.{◌≡◌, ℕ, ◌≤◌, None, length, slice_index_or};
ghost use Rattle.wholes.specs.Places.{place_of};

/// For each position the one that the parts placed from there on reach first, where they can be placed.
#[derive(Clone, Copy)]
pub struct Reach {
    pub(crate) ends: [Option<u8>; 256],
    ghost whole: { length ends ≡ 256 },
    ghost small: { (k : ℕ) → place_of (slice_index_or ends k None) ≤ 256 },
}
