//! Rules of the monitor that look at no state: who may start what, and how a request is answered for an area that another
//! service holds.
//!
//! It stands on the generation and on the definitions of the abstract monitor. To the layers above, which ask before a
//! dialogue service begins, its contract says whether locks and keys deny a TAC to a user at an LTERM, and for whose lack of
//! which code; and to the locks on areas, when a request waits, and when it is answered with K04 or K05.
#![tactic(auto)]

mod access;
mod requests;

pub use access::decide;
pub use requests::refused;
