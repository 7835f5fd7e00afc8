//! The checks of an application: the statements of a generation together, and what they generate (`kdcdef_check`), and the
//! fit of program units to a generation (`unit_check`).
//!
//! It stands on kd_base, application_types and indexmap. To the layers above, which read the two texts, its contract says
//! that a generation, or units that fit it, are answered exactly where there is no fault, otherwise the first one.
#![tactic(auto)]

pub mod kdcdef_check;
pub mod unit_check;
