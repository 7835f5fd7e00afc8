//! The loop over a script: its commands, and the turns of each RUN, in their order.
//!
//! It stands on the core, which says what each turn and each command does. What is done with their acts, and how a
//! monitor starts again at a RESTART, says a `Sink`. To the layers above, which give it files, a trail or a listener,
//! its contract says that the sink took just the steps of the abstract monitor's history of the script, or failed
//! within the command that comes after those that it says were done. For a sink that keeps the durable tables beside
//! the core, `turn_beside` and its kin bring both on together.

mod beside;
mod script;
mod sink;
mod turns;

pub use beside::{apply_beside, keep_commits, start_beside, turn_beside};
pub use script::{do_command, run_script};
pub use sink::Sink;
