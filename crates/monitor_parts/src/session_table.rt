//! Who is signed on at which terminal, and what a terminal input means.
//!
//! It stands on the generation and on the definitions of the abstract monitor. Its contract gives the core the use of each
//! input, and the sessions as the list that the monitor's state has: in ascending order of their PTERMs, a user in one at
//! most. They are found by PTERM and by user.

mod input;
mod session;
mod sessions;
mod split;

pub use input::lterm_of;
pub use sessions::Sessions;
