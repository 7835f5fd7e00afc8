//! An open transaction: all that a service has done since its last synchronisation point.
//!
//! It puts the message area, the private writes and the drafted jobs (`async_queue`) together with the unit run. To the layers above,
//! which perform calls and end transactions, its contract says that a transaction opens, counts an answered call and
//! goes on in a further unit run as the abstract monitor defines it.
#![tactic(auto)]

pub mod async_queue;
mod held;
mod open;

pub use held::{HeldAreas, release};
pub use open::OpenTransaction;
