//! The parts of a call that need no run: what its words ask for, the texts of its BASE and what they say, its KDCFILE or
//! its two copies, attached and opened, the report of a generation, the texts that `make` makes, and the line and the
//! status of a refusal.
//!
//! It stands on the readers of texts (application_read, script_read, audit_trail), on device_acts and kdcfile_double, which
//! open files, and on refusals, whose lines it sends; so it stands beside the crates that run a script, and not above them.
//! To the calls above, its contract says that what was read is what the texts say, and all that they say, or their first
//! fault; that an opening gives just the tables that the file keeps, or the cause why it is refused, and what a stop
//! within it leaves; and that a refusal sends its line and does nothing else.
#![tactic(auto)]

mod errand;
mod error;
mod generation_report;
mod lawful;
mod made_input;
mod opening;
mod reading;
mod refusing;
mod twin;
mod words;

pub use errand::{Asked, Looking, OneFile, Storing, Task, TwoFiles, Work};
pub use error::{CallError, CopiesError};
pub use generation_report::report;
pub use lawful::{texts_can_run, texts_of_two_can_run};
pub use made_input::made_report_lines;
pub use opening::{attach, look, open};
pub use reading::read_texts;
pub use refusing::{Cause, missing_line, refuse_for};
pub use twin::{
    attach_both, find_missing, look_at_copies, open_copies, open_unless_missing, refuse_beside,
};
pub use words::{Word, base_of, live_of, request_of};
