//! Scripts: a text of commands, a line each.
//!
//! It stands on kd_base, texts, kdcs_types, application_types and abstract_monitor. To the top call, its contract says
//! that a text is read exactly as the commands that its lines say in a generation, or refused with the first line that
//! says none; and that the PTERMs and tasks of these commands are those of the generation.
#![tactic(auto)]

mod command;
mod fault;
mod keyword;
mod laws;
mod line;
mod number;
mod reading;
mod terminal;
mod word;

pub use fault::ScriptFault;
pub use laws::{commands_are_said, faults_are_first, says_what_its_lines_say, worked_lines};
pub use reading::read_script;
