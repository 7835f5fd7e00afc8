//! Audit trails: what a run kept of its commits, as a text that is written and read.
//!
//! It stands on record_codec, texts, kdcs_types and the definitions of abstract_monitor. To the crates that make a trail
//! and that replay one, its definitions say what the text of a trail is, what each line says, and which line may stand in
//! which place. Its contract says that `head_lines`, `entry_lines` and `end_line` are that text piece by piece; that
//! `read_trail` answers just the trail that a text says, whose changes tables take, or the first bad line; and that a trail
//! that was written is read again. Whether the fingerprint is that of some texts, and what a replay makes of the entries,
//! is not its matter.
#![tactic(auto)]

mod entry;
mod fault;
mod hexadecimal;
mod kept;
mod kept_reading;
mod keyword;
mod laws;
mod line;
mod place;
mod reading;
mod word;
mod writing;

pub use entry::{By, Trail, TrailEntries, TrailEntry};
pub use fault::TrailFault;
pub use laws::{faults_are_first, says_what_its_lines_say, trails_come_back, worked_rows};
pub use reading::read_trail;
pub use writing::{end_line, entry_lines, head_lines};
