//! The orders in which the tasks of a script can work, its walks with their signs, and what a search through the walks
//! decides.
//!
//! It stands on the definitions of the monitor and on the laws of states. To a search it promises that a turn has an effect
//! where it moves something, or its request waits otherwise after it; when 0 may end a RUN; whether transactions ran one
//! at a time; and that the next choice leaves just those walks ahead that were still to be walked, and none where it says
//! that no choice is left. It knows no monitor.
#![tactic(auto)]

mod effect;
mod frame;
mod serial;
mod signs;

pub use effect::shows_effect;
pub use frame::{Frame, Turns, advance, ends, turns_of};
pub use serial::stays_serial;
pub use signs::Signs;
