//! A copy of a KDCFILE that is kept twice: a file in pages with one record more, the sequence of its last commit.
//!
//! It stands on kdcfile_store. Its own calls know one file and one device; `kdcfile_halves` makes them on one half of a
//! twin, and `kdcfile_mending` writes one half anew from the other one. To the crate that keeps both copies, its
//! definitions say which bytes are a copy, of which sequence and with which content, and which copy of two files
//! counts. Its contract says that `load_copy` tells an empty file, a file that is no copy and a copy apart and leaves
//! each as it is, that a stop within `make_copy` leaves no copy or the first one, that `commit_copy` makes the copy of
//! the next sequence, whole or not at all, that bytes are one copy at most, and that of two files one copy counts at
//! most.
#![tactic(auto)]

mod answer;
mod committing;
pub mod kdcfile_halves;
pub mod kdcfile_mending;
mod laws;
mod loading;
mod making;
mod patching;

pub use answer::{Found, LoadedCopy};
pub use committing::commit_copy;
pub use laws::{
    copies_have_one_meaning, images_are_told_apart, next_copies_are_made, one_copy_counts,
};
pub use loading::load_copy;
pub use making::make_copy;
pub use patching::{bare_content, sequenced};
