//! The run of the made application on a device of its own, and its report.
//!
//! `made_report` answers the lines that the trace of the commands from the empty tables says.

mod report;
mod stored;

pub(crate) use report::made_report;
