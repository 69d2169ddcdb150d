//! A run of one symbol.

ghost use Rattle.std.specs.Prelude.{◌≡◌};
ghost use Rattle.book.specs.Runs.{past};

/// Steps one after another that carry the symbol: `count` of them, from step `start` on.
#[derive(Clone, Copy)]
pub(crate) struct Run {
    pub(crate) start: u8,
    pub(crate) count: u8,
}

impl Run {
    /// The step behind the run.
    pub(crate) fn end(self) -> usize
        ensures { result ≡ past self }
    {
        usize::from(self.start) + usize::from(self.count)
    }
}
