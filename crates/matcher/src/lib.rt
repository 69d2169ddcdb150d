//! Which stretches of a line a query fits.

#![tactic(auto)]

mod calls;
mod faults;
mod found;
mod search;
mod survey;

pub use calls::{fit, list};
pub use faults::{FitFault, ListFault};
