//! The files of an application are carried to new texts, in all four ways: from one file or two copies to one file or two
//! copies.
//!
//! It stands on kdcfile_update, which says what becomes of the tables and which are refused, and on kdcfile_double with
//! kdcfile_copies, which say which of two copies counts. To the program, its definitions say what two files are, which are
//! taken, and which rows go. One commit of the first file decides. Where the texts ask for two copies, the second file is
//! written anew from it afterwards; where they ask for one file, a second copy is shut before. So the contract of
//! `carry_files` says that a stop at any moment leaves the old files, or those of the carried tables, and never what could
//! be taken for both; that after `Ok` each half stands for the carried tables, but for one on which a call failed; that no
//! row goes where none may, and which would; why files are refused, which then stay as they are; and that nothing is sent.
//! `would_carry` tells beforehand what it would do, and writes nothing. A law says that whatever a stop leaves is taken
//! again. `back_up` writes what counts of files of these texts to an empty file, which stands for the same tables after
//! `Ok`.
#![tactic(auto)]

mod backing;
mod beside;
mod carrying;
mod error;
mod files;
mod finding;
mod first_file;
mod gate;
mod laws;
mod losing;
mod new_tables;
mod outcome;
mod planning;

pub use backing::{BackUpError, back_up};
pub use error::FilesError;
pub use files::{carry_files, would_carry};
pub use laws::{files_of_two_have_one_meaning, stops_are_taken};
pub use losing::{Losses, rows_gone};
pub use outcome::{Alike, Carried, Would};
