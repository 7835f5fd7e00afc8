//! The KDCS calls of an open transaction, but for what becomes of it at the end of a unit run; and one statement of a
//! service, which joins them with the step of a unit (`service_statement`).
//!
//! It stands on open_transaction, on the locks and access rules of monitor_parts, on the messages, areas and PENDs of
//! service_parts, and on laws_of_runs. To the layers above its contract says that a call answers, and changes the
//! transaction, exactly as the abstract monitor defines it for what the locks and the tables say at that moment, and
//! what becomes of the locks.
#![tactic(auto)]

mod answer;
mod areas;
mod calls;
mod jobs;
mod locals;
mod lock;
mod messages;
mod operand;
mod outside;
mod pend;
pub mod service_statement;

pub use calls::perform;
