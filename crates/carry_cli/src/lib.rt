//! The top calls of who carries a KDCFILE about: the files of a BASE are carried to its texts, in one file or in two
//! copies, or it is tried; `state` tells what they are and what the next run would do with them; and they are backed up.
//!
//! It stands on call_parts, which reads the texts and attaches the files; on kdcfile_carry, which carries them; on
//! kdcfile_copies, which tells what a file is; and on device_acts and kdcfile_double, which say what an opening answers. To
//! the program above, its contract says of files that are carried what a stop at any moment leaves, that nothing is said
//! before they stand, that each half stands for the carried tables where the status is 0, that no row goes and no byte is
//! written unless that was asked for, and why files are refused. Of `state` it says that the lines are those of the bytes of
//! both files and of the texts, by a definition for each line, and that nothing is written. Of `backup` it says that no byte
//! of the files is written, and that the other file stands for the same tables where the status is 0. Each status has its
//! causes.
#![tactic(auto)]

mod answer;
mod asking;
mod backing;
mod carrying;
mod counting;
mod kinds;
mod laws;
mod lines;
mod making;
mod next;
mod seeing;
mod state;
mod text_kinds;
mod top;
mod words;

pub use answer::{Answer, Hindrance};
pub use backing::BackupAnswer;
pub use kinds::{Counting, Kind, Making, Next, Said, State, There, Why};
pub use laws::files_have_one_state;
pub use top::{backup, carry};
pub use words::{Options, backup_of};
