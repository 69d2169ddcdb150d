//! Alphabets: named symbols, and which of them a step carries.

#![tactic(auto)]

mod alphabet;
mod bounds;
mod carrying;
mod caseline;
mod fault;
mod layout;
mod name;
mod naming;
mod sheet;
mod symbol;

pub use alphabet::Alphabet;
pub use bounds::{Asked, Bounds, NotAsked};
pub use fault::SheetFault;
pub use naming::{all_right, found_where_named, is_operator};
pub use sheet::answer_tells;
