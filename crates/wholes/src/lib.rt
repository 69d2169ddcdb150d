//! The table of a whole from the tables of its parts.

#![tactic(auto)]

ghost use Rattle.std.specs.Prelude.{◌≡◌};
ghost use Rattle.wholes.specs.Shows.{lowest, allowed};

mod reach;
mod repeats;
mod symbols;
mod turns;
mod view;
mod windows;

pub use reach::Reach;
pub use repeats::{later, repeat, stops};
pub use symbols::symbol;
pub use view::{Many, View};
pub use windows::{counted, range, shifted};

impl View {
    /// The first position at which stretches may begin.
    pub fn lowest(self) -> usize
        ensures { result ≡ lowest self }
    {
        match self {
            View::From(s) => s,
            View::Own => 0,
        }
    }
}

impl Many {
    /// Whether there may be so many.
    pub fn allows(self, count: usize) -> bool
        ensures { result ≡ allowed self count }
    {
        match self {
            Many::Exactly(k) => count == usize::from(k),
            Many::AtLeast(k) => usize::from(k) <= count,
            Many::AtMost(k) => count <= usize::from(k),
        }
    }
}
