//! The made input of `make`, and the lines that report of its run.
//!
//! `made` answers just the defined texts, which the number of inputs alone determines, and `made_report_lines` the lines by
//! what the run did.

mod digest;
mod input;
mod laws;
mod lines;

pub(crate) use input::made;
pub(crate) use laws::made_texts_are_taken;
pub use lines::made_report_lines;
