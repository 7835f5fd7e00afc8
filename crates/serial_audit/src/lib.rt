//! An auditor of runs: each commit of a trail is checked by itself, by replaying its transaction alone.
//!
//! It stands on KDCS calls, statements, synchronisation points and the laws of the monitor, and on nothing of the core
//! that made the run: no other service, no task and no queue. Its lock table is that of the one transaction. To the
//! program above, its contract says that an entry of a trail holds exactly where the definitions say so: what made the
//! commit makes, alone and in one go, just these tables of those before it, and the changes of the entry are just the
//! difference.
#![tactic(auto)]

mod asking;
mod audited;
mod ending;
mod expected;
mod names;
mod notes;
mod opening;
mod replay;
mod same;
mod shows;
mod statement;
mod transaction;

pub use audited::{Audited, audit_entry};
