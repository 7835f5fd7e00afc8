//! Cases of a program over rooms and twins in memory, as a text: calls, and what each must answer, send and leave.
//!
//! It stands on kd_base and kd_device. A text of cases is read line by line; each line adds to the texts, the
//! two files and the failing calls of the case, makes a call, or says what the last call did. The layer above gives the program
//! that is called, as a `Program`, and prints what `Cases` finds wrong. A further case is a few lines of text, and takes
//! no code and no proof.
#![tactic(auto)]

mod answer;
mod cases;
mod escapes;
mod failing;
mod files;
mod line;
mod program;
mod stage;
mod texts;
mod wrong;

pub use cases::Cases;
pub use program::Program;
