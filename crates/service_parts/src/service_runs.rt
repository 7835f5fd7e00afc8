//! The unit runs of a service: how one begins and begins anew, and which services outlive a stop.
//!
//! It stands on generations and on the definitions of the monitor. To open transactions and synchronisation points, its
//! contract says that a unit run begins with the KB, the budget and the SPAB that are defined, and that `is_durable` is
//! false exactly for a dialogue service of a user with RESTART=NO.

mod durable;
mod fresh;

pub use durable::is_durable;
pub use fresh::{budget, fresh_run, kb_of, restart, spaces};
