//! Outlines of the states of a monitor, by which two states are compared.
//!
//! It stands on monitor_core, whose parts it goes through, on sync_points, which compares rows, and on the laws of runs, by
//! which an open transaction is the replay of what it has kept. To a search through orders, its contract says that an
//! outline is just that of the state of a core, that outlines which are found the same are one, and that states with one
//! outline are one. It changes nothing, and knows no orders.
#![tactic(auto)]

mod kept;
mod outline;
mod same;
mod scheduled;
mod signed;

pub use outline::Outline;
