//! Refusals: why a call does nothing, and what it then sends and answers.
//!
//! It stands on kd_device, on application_read, script_read and audit_trail, whose faults it prints, and on device_acts,
//! which sends a line. To the program above, its contract says that a text of the room is read up to one byte past the
//! limit, or a read failed; and that a refusal sends the one line of its cause, attaches no file, and answers the status of
//! its cause, or 5 exactly where the line failed, or 7.
#![tactic(auto)]

mod error;
mod refusing;
mod room_text;
mod status;

pub use error::{FileRefusal, Refusal, TextError};
pub use refusing::{refuse, refuse_file, refuse_texts};
pub use room_text::{named, text};
pub use status::Status;
