//! A monitor whose commands are typed: each line is performed, and all that it sends and stores is out, before the next
//! line is read.
//!
//! It stands on typed_lines, which says what a line asks for, and on device_run, which performs the commands of a script
//! over what keeps the tables, and answers the core from which further commands go on; what questions print is of
//! monitor_parts and lab_turns. The input is a `Typing`, and knows what is seen of the keeper when it is read, as one who
//! reads the answers before going on. To the top call, `live_with` says that at each moment what was sent and what a stop
//! leaves are a cut of the acts of the lines that were read, in their order; that at each read all acts of the lines
//! before it were done; that a line that is refused does nothing but its one line; and that at the end of the input no
//! line is left out.
#![tactic(auto)]

mod answering;
mod counts;
mod error;
mod lines;
mod performing;
mod talking;
mod typing;

pub use error::LiveError;
pub use lines::MemLines;
pub use talking::live_with;
pub use typing::Typing;
