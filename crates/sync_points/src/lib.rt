//! Synchronisation points and abnormal ends: what an open transaction changes in the durable tables.
//!
//! It stands on open_transaction, on table_fit, which knows what changes make of a charge, and on the definitions of
//! the monitor. To the core above, its contract says that the changes of a point or an end are the difference of the
//! durable tables before and after it, though they are made of what the transaction wrote, and that a point is refused
//! exactly where the definitions refuse it.
#![tactic(auto)]

mod ends;
mod gssbs;
mod kept;
mod points;
mod pool;
mod real;
mod row;
mod writes;

ghost use Rattle.sync_points.specs.Laws.{PointsChangeWhatWasWritten, EndsChangeTheirOwnRows};

pub use ends::broken;
pub use kept::KeptRecord;
pub use points::{SettleAnswer, settle};
pub use real::{is_real, same_service, same_value};
pub use writes::service_change;

/// What a synchronisation point or an abnormal end changes in the durable tables is what the transaction wrote, where
/// that is another row than stood there.
pub fn points_change_what_was_written()
    ensures points { PointsChangeWhatWasWritten }
    ensures ends { EndsChangeTheirOwnRows }
{}
