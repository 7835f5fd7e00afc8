//! The data types of the monitor: tables and their changes, areas, services, jobs, KDCS calls and their answers, the run
//! of a program unit, and acts.
//!
//! It stands on kd_base. Every crate of the monitor speaks of these types, and so do the definitions in specs/.
#![tactic(auto)]

mod act;
mod call;
mod key;
mod laws;
mod lists;
mod places;
mod row_lists;
mod run_state;
mod service;
mod tables;

pub use act::{Act, Acts, Change, Changes, Row, RowChanges};
pub use call::{Call, Cause, Code, Reply};
pub use key::{Area, Key, ServiceId, Target};
pub use laws::{changes_set_and_remove, tables_change_by_their_difference};
pub use lists::{Areas, Notes, Parts};
pub use run_state::{Header, RunState};
pub use service::{Ending, Job, JobValue, Note, Service, Settled};
pub use tables::Tables;
