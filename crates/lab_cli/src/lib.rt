//! The words of the laboratory: `check`, `trace`, `talk`, `explore` and `test`.
//!
//! It stands on lab_scripts, which performs scripts and typed lines at a console, on lab_orders, which tries the orders of
//! the tasks, on lab_check, which looks for faults, on lab_warnings, which looks for slips, and on the readers of texts and
//! of a KDCFILE as the program `utm` has them. A call starts from the tables that a KDCFILE keeps, or from the empty ones,
//! and keeps what it does in memory: no file is made, attached or written. It is generic over the room that has the texts
//! and over the console, so that all of it can be tried in memory.
//!
//! To the program above, its contract says that `lab` works on just what the texts and the files of its BASE are, and does
//! from there what lab_scripts and lab_orders say of its word; that it is refused for its cause alone, with the line and
//! the status of `utm`; that `explore` prints just the text of its outcomes, which a definition says line by line, with
//! where the script of each parts from that of the first, as lab_scripts says; and that words of no form get the usage
//! line. What `check` prints, no clause says.
#![tactic(auto)]

mod checking;
mod exploring;
mod files;
mod invariants;
mod printing;
mod reading;
mod serial;
mod stop;
mod top;
mod words;

pub use exploring::explore_orders;
pub use lab_turns::LabError;
pub use lab_turns::lab_printing::{Console, Source};
pub use reading::{Place, place_of};
pub use refusals::Status;
pub use stop::Stop;
pub use top::lab;
pub use words::{Word, request_of};
