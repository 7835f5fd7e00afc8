//! The statements of a KDCDEF text with their meaning: typed, their defaults filled in, their numbers in range.
//!
//! It stands on texts, of which it takes the statements of a KDCDEF text as they are written, and on application_types.
//! To the check of a generation its contract says that each typed statement says what its raw one says by the table of
//! operands, that every other list of statements is refused for its first fault, and that the numbers lie in their
//! ranges.
#![tactic(auto)]

mod fault;
mod key_set;
mod operands;
mod password;
mod reading;
mod rows;
mod said;
mod statement;
mod value;
mod words;

pub use fault::ReadFault;
pub use reading::{Reader, read};
