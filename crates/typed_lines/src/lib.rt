//! What a typed line asks for: a question, a switch, or a line of a script.
//!
//! It stands on script_read, which reads a line of a script. To the layers above, which perform commands as they are
//! typed, its contract says which question or switch a line is, just which commands any other line says, with the turns
//! of the tasks behind an input, or its fault, and how a refusal of it is worded.
#![tactic(auto)]

mod commands;
mod refusal;
mod typed;

pub use commands::commands_typed;
pub use refusal::refused_line;
pub use typed::{Question, Switch, Typed, echo_line, typed_of};
