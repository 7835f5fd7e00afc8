//! The data types of an application: typed statements of a generation with the entries that they make (`kdcdef_types`),
//! and program units in the step language (`unit_types`); and what a checked application is made of: the generation of
//! statements that have no fault (`generation`), and units that fit one (`units`).
//!
//! It stands on kd_base and indexmap. The readers of both texts, their checks, all definitions of the monitor and the
//! monitor speak of these types. To these layers its contract says what a generation answers for each name, which ranges its
//! numbers keep, and what all fitted units keep, so that nothing of it is asked again.
#![tactic(auto)]

pub mod generation;
pub mod kdcdef_types;
pub mod unit_types;
pub mod units;
