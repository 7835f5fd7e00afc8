//! A monitor that performs commands step by step, and tells a listener what each step did; and what is printed of it
//! (`lab_printing`).
//!
//! It stands on monitor_core, whose core says what each turn and each command does, and on script_run, whose loop goes
//! through the turns of a command. To the layer above, which prints, its contract says that a command brings the monitor to
//! the state after the abstract monitor's steps of it, that a script brings it to the state after its history, and that the
//! listener hears of each command, of just its steps, in their order, each with the state after it and its acts, and of the
//! end of each RUN. It knows no file and no device.
#![tactic(auto)]

mod bench;
mod error;
pub mod lab_printing;
mod listener;
mod run_end;
mod view;
mod watching;

pub use bench::Bench;
pub use error::LabError;
pub use listener::Listener;
pub use run_end::RunEnd;
pub use view::{At, TurnView, held_by};
