//! The top call of typed lines: `live` opens the KDCFILE of a BASE, or its two copies, and performs what is typed, to the
//! end of the input.
//!
//! It stands on call_parts, which reads the texts and opens the files, on live_run, which performs the lines, and for two
//! copies on twin_run, whose keeper it lends to the same loop. To the program above, its contract says what the statuses
//! mean, and of a KDCFILE that is accepted that at each moment what was sent and stored is a cut of the acts of the lines
//! that were read; that when a line was read, all that the lines before it do was sent and stored; and that 0 comes only at
//! the end of the input, with all done. Over two copies it says so of the copy that counts, with the lines of the copies,
//! and of each half by itself on which no call failed.
#![tactic(auto)]

mod double;
mod error;
mod file;
mod half;
mod lawful;
mod top;

pub use top::live;
