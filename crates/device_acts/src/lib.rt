//! Acts of the monitor over what keeps its content: commits that are kept and lines that are sent, in their order; what
//! a commit makes of the records of a file (`record_commits`), and the tables that a file keeps (`warm_start`).
//!
//! The trait `Keeper` says what keeps a content, in one file or in several, and has a line; a `SingleFile` is a device
//! with a store. It stands on kdcfile_store, which keeps each commit whole or not at all, on kd_device, and on
//! record_codec, whose patch a commit's changes are. It knows no core and performs no command. To the run of a script,
//! its contract says that at each moment what was sent and what the files stand for are a cut of the acts, that after
//! `Ok` all of them are done, that the bytes written are at most the bounds of the commits that the files have, and of
//! one that was begun, and that the disk fails only at a commit.
#![tactic(auto)]

mod acts;
mod keeper;
pub mod record_commits;
mod saying;
mod single;
pub mod warm_start;

pub use acts::{do_acts, keep_acts};
pub use keeper::Keeper;
pub use saying::say;
pub use single::SingleFile;
