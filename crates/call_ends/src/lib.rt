//! What a call leaves and keeps, whatever its acts are: the laws that its commands keep from the tables with which it
//! begins; and over two copies what a stop leaves, and what there is at its end.
//!
//! It stands on laws_of_runs, on call_parts, which opens and mends the two files, and on twin_run, which does acts over
//! them. It does nothing: it has definitions and their laws, by which the calls of utm_cli and of live_cli promise.
#![tactic(auto)]

mod lawful;

pub use lawful::scripts_of_suited_tables_run_lawfully;
