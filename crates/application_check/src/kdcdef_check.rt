//! The check of a generation: its statements together, and what they generate.
//!
//! It stands on the types of an application and on indexmap. To the layers above its contract says that `check` answers the
//! generation of its statements, or the fault of the least line and, on it, of the least number.

mod checking;
mod fault;
mod gathered;
mod limits;
mod own;
mod passes;
mod tables;
mod tally;
mod whole;

pub use checking::check;
pub use fault::CheckFault;
pub use gathered::Gathered;
