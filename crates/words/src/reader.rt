//! A reader of a text, whose invariant the rest of the crate relies on.

ghost use Rattle.std.specs.Prelude.{◌≤◌, length};

/// A lent text, and how far it was read.
#[derive(Drop)]
pub struct Reader<'a> {
    pub text: &'a [u8],
    pub at: usize,
    ghost inside: { at ≤ length text.now },
}
