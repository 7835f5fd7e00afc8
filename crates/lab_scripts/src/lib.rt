//! Scripts at a console: performed turn by turn (`trace`), as they are typed (`talk`), and against the lines that they
//! expect (`test`).
//!
//! It stands on lab_turns, which performs commands step by step and prints them, on script_read, which says what the lines
//! of a script are, and on typed_lines, which says what a typed line asks for. To the top call `lab`, its contract says
//! what is printed in a trace; that all lines that are typed are performed, each in its turn and up to the end of the
//! input, and what is printed of each; and that a test is met just where each command sends the lines that are expected
//! of it, and no others, and else tells the first place where it does not. Nothing else passes at the console. To
//! `explore` it says where two scripts part, and what each of them does there (`parting`). It knows no file.
#![tactic(auto)]

mod asking;
mod difference;
mod kept;
mod parting;
mod recorder;
mod same_command;
mod script_lines;
mod talking;
mod telling;
mod testing;
mod tracing;

pub use parting::{Setting, put_indented, tell_parting};
pub use talking::{do_line, talk};
pub use testing::test;
pub use tracing::trace;
