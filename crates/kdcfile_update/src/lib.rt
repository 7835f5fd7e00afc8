//! A KDCFILE that is carried to a new generation: it is opened whatever its texts were, its tables are carried and
//! judged, and in one commit the file is made with the new fingerprint and page pool and keeps the new tables; then a
//! report says what went.
//!
//! It stands on kd_update, which says what becomes of tables, on device_acts, whose warm_start opens a file of any texts,
//! on kdcfile_store and on table_fit. To the program, its definitions say which files are taken and which are refused
//! and why. Its contract says that a stop leaves the old tables, as they were made, with nothing sent, or the new ones
//! with a front of the report; that after `Ok` the new ones stand and the whole report was sent; that a file that is up
//! to date, or refused, is not written; and how many bytes are written at most.
#![tactic(auto)]

mod carrying;
mod error;
mod laws;
mod report;
mod sending;
mod updating;

pub use error::CarryError;
pub use laws::{taken_tables_suit, update_answers_exclude_each_other};
pub use updating::update;
