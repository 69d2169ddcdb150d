//! When a shape fits a stretch of a line.

#![tactic(auto)]

pub mod laws;
mod stretch;

pub use stretch::Stretch;
