//! Tables that are carried to a new generation: what becomes of them, and whether they may be carried.
//!
//! It stands on table_fit, service_parts, application_types, kdcs_types and the definitions of laws_of_states. To the
//! program, its definitions say what becomes of each row and for which five reasons tables may not be carried. Its
//! contract says that `carried` answers just those tables, and how many rows of each kind went; that `judge` answers
//! just the first reason; that carried tables are in order and proper where the old ones are, and suit where they may
//! be carried; and that tables that suit already stay as they are. It knows no file.
#![tactic(auto)]

mod carrying;
mod error;
mod judging;
mod laws;
mod refitting;

pub use carrying::{Dropped, carried};
pub use error::UpdateError;
pub use judging::judge;
pub use laws::{carried_tables_suit, rows_are_carried_one_by_one, what_suits_stays, worked_rows};
