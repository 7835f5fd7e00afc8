//! The state of a monitor with its indexes: sessions, ready list and tasks, open transactions, locks, marks of jobs.
//!
//! It stands on the sessions and locks of monitor_parts, on the ready list and tasks of step_scheduler, and on open
//! transactions, jobs and tables. To the layers above, which do turns and commands, its contract says that each change
//! of the parts is a change of the abstract monitor's state, and that every index stays the state's.

mod parts;
mod places;
mod rows;
mod terminals;
mod transactions;

pub use parts::MonitorParts;
