//! The parts of one service: a statement of a unit (`unit_step`), its unit runs (`service_runs`), its message area
//! (`message_area`), its private writes (`storage_areas`), what its PENDs do (`pend_rules`), and the moments at which
//! its jobs are due (`timer_queue`).
//!
//! It stands on the definitions of the monitor, and on generations and units. To the open transaction and the calls
//! above, each module's contract says that it does just what the definitions say. None knows another service.
#![tactic(auto)]

pub mod message_area;
pub mod pend_rules;
pub mod service_runs;
pub mod storage_areas;
pub mod timer_queue;
pub mod unit_step;
