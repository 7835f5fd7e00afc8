//! The parts of a monitor that all services share: who is signed on where (`session_table`), who holds and awaits which
//! area (`area_locks`), which unit each task runs (`task_units`), and the printed lines (`output_lines`).
//!
//! It stands on monitor_rules, on the definitions of the monitor, on generations and on units. To the core, each module's
//! contract says that it answers and changes just what the definitions say.
#![tactic(auto)]

pub mod area_locks;
pub mod output_lines;
pub mod session_table;
pub mod task_units;
