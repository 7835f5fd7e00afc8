//! The abstract monitor: what KDCS calls, PENDs, turns of tasks, terminal inputs and script commands do, as definitions
//! over lists and whole tables that compute; what a plain statement of a unit means (`unit_semantics`); and the data
//! types that they need beside those below.
//!
//! It stands on the data types (kdcs_types) and on generations and units (application_types). A crate above proves each
//! of its calls against one definition: `denial_of`, `call_outcome`, `pend_outcome`, `synchronised`, `broken`,
//! `due_job`, `pick`, `use_of`, `turn_of`, `command_of`, `started` and `trace` are the words that contracts cite.
#![tactic(auto)]

mod access;
mod answer;
mod command;
mod draft;
mod input_use;
mod outcome;
pub mod unit_semantics;
mod work;

pub use access::Denial;
pub use answer::{Called, Happened, LockAnswer};
pub use command::Command;
pub use draft::{Draft, Due};
pub use input_use::{ServiceState, SignFault, TacFault, Use};
pub use outcome::Outcome;
pub use work::Work;
