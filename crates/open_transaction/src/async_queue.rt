//! Asynchronous messages: the jobs of the tables, without their messages, with a mark on those that an open service has
//! taken, and the jobs of a transaction that has no synchronisation point yet.
//!
//! It stands on ordered maps, on the data types, on the clock at which a job is due, and on the definitions of the monitor,
//! which say which job is due first and which numbers jobs get. To the layers above, its contract says that the first due
//! job is exactly the one of the definitions, that a job that is taken stays where it is until it is removed, that the fate
//! of a job whose service ends abnormally is the defined one, and that drafts become jobs in order, numbered from the number
//! that the caller names.

mod allows;
mod choice;
mod drafts;
mod due;
mod fate;
mod jobs;
mod queue;

pub use allows::Allows;
pub use drafts::DraftJobs;
pub use fate::{dead_letter_queue, fate_change, own_job};
pub use jobs::Jobs;
pub use queue::QueuedJob;
