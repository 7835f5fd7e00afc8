//! The statements of a generation, typed, and the entries that they make.
//!
//! It stands on kd_base. The reader of statements, the check of a generation and all definitions of the monitor speak of
//! these types. `specs/` says which statements a reader may give, and what a list of statements generates.

mod entry;
mod limits;
mod statement;

pub use entry::{CallUse, Codes, KeySet, LtermEntry, PtermEntry, TacEntry, UserEntry};
pub use limits::{Counts, Limits};
pub use statement::{MaxOperands, Said, Statement};
