//! What is decided of files that are carried to new texts or backed up, before anything is done with them.
//!
//! It stands on kdcfile_layout, which brings a file to rest. To kdcfile_carry, each call says its answer by a definition
//! over plain values: the sequence of the next copy, whether the files are two copies or one as is asked, and whether a
//! second copy is shut.
#![tactic(auto)]

mod deciding;
mod emptiness;

pub use deciding::{is_asked, next_sequence, shuts_second};
pub use emptiness::is_empty;
