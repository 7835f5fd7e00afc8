//! What holds of the states of the abstract monitor and of single steps: facts of a state and laws on one step
//! (`laws_of_steps`), places, sessions, rows and waits (`laws_of_places`), tables and open transactions
//! (`laws_of_tables`), and what a commit makes of tables (`laws_of_commits`). Worked examples say what the definitions
//! mean (`abstract_examples`).
//!
//! It stands on the definitions of the monitor. The functions do nothing: their contracts are laws on the definitions,
//! which all crates above may cite.
#![tactic(auto)]

pub mod abstract_examples;
pub mod laws_of_commits;
pub mod laws_of_places;
pub mod laws_of_steps;
pub mod laws_of_tables;
