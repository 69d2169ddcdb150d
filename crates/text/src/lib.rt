//! Texts of queries: read into a sheet of records, bound by an alphabet, and written out again.

#![tactic(auto)]

mod binding;
mod fault;
mod reading;
mod shape;
mod sheet;
mod writing;

pub use binding::{Unbound, bind};
pub use fault::{BindFault, SheetFault, WriteFault};
pub use parser::ReadFault;
pub use reading::read;
pub use shape::{BoundShape, ReadShape};
pub use writing::write;
