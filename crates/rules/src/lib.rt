//! The rules of tidying, and why each of them is sound.

#![tactic(auto)]

pub mod laws;
