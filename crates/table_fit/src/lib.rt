//! Whether tables fit a generation: how long the values of rows are, what they are charged, which tables suit, and how
//! many pages changes make of a charge (`row_charges`).
//!
//! It stands on record_codec, on generations and on the definitions of laws_of_states. To the crates that open a
//! KDCFILE or make tables for one, its contract says that `suits` is true exactly where tables of a file with this
//! BLKSIZE and PGPOOL suit the generation, that `value_length` is the number of bytes of a row's value, and that tables
//! are charged what their records are charged. To those that look at a row by itself, or at a part of what suits, each
//! condition is a call of its own. None of its calls takes memory.
#![tactic(auto)]

mod areas;
mod charges;
mod laws;
mod lengths;
mod messages;
mod names;
pub mod row_charges;
mod services;
mod tables;

pub use areas::{gssb_suits, tls_suits, uls_suits};
pub use charges::total_charge;
pub use laws::{charges_are_those_of_the_bytes, suiting_tables_are_short};
pub use lengths::{job_length, service_length, value_length};
pub use messages::{job_suits, shown_suits};
pub use services::service_suits;
pub use tables::{numbers_are_apart, numbers_suit, suits};
