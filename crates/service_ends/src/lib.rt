//! What follows a statement of a service that ends its unit run: synchronisation points, abnormal ends, the way back to
//! the last point, and the places where a service goes on; below them the state of a monitor with its indexes
//! (`core_state`), and which work a free task takes (`step_scheduler`).
//!
//! It stands on sync_points and open_transaction, on the sessions, locks and lines of monitor_parts, and on the laws of
//! commits. To the layer above, which does turns, its contract says that each end is the abstract monitor's: the state
//! after it, the acts, and what is kept for a replay; and that every index stays the state's.
#![tactic(auto)]

mod back;
mod broken;
mod closed;
pub mod core_state;
mod places;
mod point;
mod row;
pub mod step_scheduler;
mod terminal;
mod turned;

pub use back::go_back;
pub use broken::end;
pub use places::{hold, queue};
pub use point::pass_point;
pub use row::{go_on, header_of_row, set_row};
pub use turned::Turned;
