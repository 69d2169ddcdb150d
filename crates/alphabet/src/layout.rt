//! A sheet whose parts are where they should be.

ghost use Rattle.alphabet.specs.RightSheets.{LaidOut};

/// A sheet whose layout is right.
#[derive(Clone, Copy)]
pub struct Layout<'a> {
    pub(crate) sheet: &'a [u8],
    ghost laid: { LaidOut sheet.now },
}
