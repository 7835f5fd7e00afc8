//! The run of a script over the core alone: what made each of its commits, and what each changed; the words `trail` and
//! `audit` (`trail_words`), and the law that a run's own trail holds (`laws_of_trails`).
//!
//! It stands on monitor_core, whose loop goes through the script, and on the types of audit_trail. To the top call, its
//! contract says that the entries that it answers are those of the abstract monitor's history of the script: in the
//! order of the commits, each with its maker and its changes. It knows no file and no device.
#![tactic(auto)]

mod kept;
mod laws;
pub mod laws_of_trails;
mod steps;
mod trail;
pub mod trail_words;

pub use laws::entries_are_the_commits;
pub use trail::trail_of;
