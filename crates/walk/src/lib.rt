//! The walk through a query that stands in records: which stretches it fits.

#![tactic(auto)]

mod keeping;
mod kept;
mod many;
mod parts;
mod places;
mod seeing;
mod sight;
mod walk;
mod windows;

pub use keeping::keep;
pub use kept::Kept;
pub use sight::Sight;
pub use walk::Walk;
