//! The run of a script: the acts of each turn and each command are stored and sent, in their order, before the next.
//!
//! The content is kept by a `Reopens`: a keeper, in one file or in several, that a RESTART opens again. It stands on
//! monitor_core, whose core says what each turn and each command does, and on device_acts, which stores commits and
//! sends lines: by its record_commits each commit can be stored, and its warm_start opens a single file. To the top
//! call, its contract says that a run that ends well sends and stores all acts of the abstract monitor's history of the
//! script and tells how many commits are among them, that at each moment what was sent and what the files have are a
//! cut of them, and that the bytes written are at most the bounds of the commits that the files have, and of one that
//! was begun. Of a run that stops it says within which command it did.
#![tactic(auto)]

mod commits;
mod reopens;
mod script;
mod storing;
mod watcher;

pub use reopens::Reopens;
pub use script::{run_on, run_script, run_with};
pub use watcher::{Nobody, Watcher};
