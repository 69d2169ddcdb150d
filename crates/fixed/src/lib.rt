//! Lists and stacks of a fixed capacity, which lie in the value itself.

#![tactic(auto)]

mod list;
mod listing;
mod piling;
mod stack;

pub use list::List;
pub use stack::Stack;

/// No room is left.
#[derive(Clone, Copy, PartialEq, Eq, Debug)]
pub struct Full;
