//! A warm start: the tables that a KDCFILE keeps for the application of two texts, or the reason why there are none.
//!
//! It stands on kdcfile_store, application_types, record_codec and table_fit. To the program, its definitions say which
//! tables the bytes of a file stand for and which files an application starts from. Its contract says that
//! `fingerprint_of` is the SHA-256 digest of a definition and its units, and that `open_tables` makes an empty file,
//! answers the tables of a file that is of the same texts and whose tables suit the generation, and refuses every other
//! file, which then stays as it is; so does every file where memory runs out. After `Ok` a stop leaves just the file
//! that was opened. What is written is at most a fresh file and one byte. `read_tables` answers the same tables, and
//! leaves each file as it is; so does `open_any`, which asks for no texts.

mod error;
mod fingerprint;
mod laws;
mod opening;

pub use error::OpenError;
pub use fingerprint::fingerprint_of;
pub use laws::{answers_exclude_each_other, files_have_one_meaning, texts_are_told_apart};
pub use opening::{limits_of, open_any, open_tables, read_tables, tables_in};
