//! All orders in which the tasks of a script can work, and what comes out of each.
//!
//! It stands on monitor_core, whose core says what each turn and each command does, on monitor_parts, for the listing
//! of tables, on the laws of states, and on rand_xoshiro, by which orders are drawn. It searches walks, which are orders
//! without their turns without effect, and performs each that it finds. To the laboratory, its contract says that each
//! outcome is that of a walk, which it shows with all that it sends: of the script with the TURN commands of this walk in
//! place of RUNs; that each walk is an order without its turns without effect; that no two outcomes have the same lines of
//! each name, the same tables and the same signs; that there is a list of the walks that were tried, of the length that it
//! tells, in which so many come to each outcome as it counts, and none of them has fewer turns than the one that is shown;
//! that where it answers that it tells of all, each walk is stood for by one in this list, which comes to the same with no
//! more turns, each order's lines and tables are among the outcomes, whichever turns without effect it has, and it tells
//! rightly whether some walk in which each transaction runs in one go leaves the tables of an outcome; that where it
//! answers that it tried each, each walk is in this list once; and that elsewhere there are more walks than it may try.
//! Four laws are beside it (`laws_of_orders`); one says that the rotation of the tasks is an order, one that the script of
//! a walk names what the generation has. It knows no file and no device.
#![tactic(auto)]

mod draw;
mod explored;
mod key;
pub mod laws_of_orders;
mod lines;
mod look;
mod path;
mod performed;
mod reach;
mod resting;
mod script;
mod search;
mod seeing;
mod standing;
mod start;
mod step;
mod turns;

pub use explored::{Explored, Outcome, explore};
pub use lab_walks::{Signs, Turns};
pub use script::turned;
