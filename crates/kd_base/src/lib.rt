//! The pieces that every crate uses: names, decimal numbers, the printed form of bytes, lists of bytes and of items,
//! big-endian fields, want of memory, and pairs in the order of their keys (`sorted_pairs`).
//!
//! It stands on no other crate. To all layers above, its contract says which bytes are a name or a number, that names
//! compare as their bytes do, that a field reader answers exactly the field that the bytes begin with, or `None` and
//! stays where it was, that bytes are unchanged by a field whose writing fails, and that what was written is read again. Its
//! specs also say, for all that read texts, which of several faults comes first, and what an answer says that may be want
//! of memory.
#![tactic(auto)]

mod bytes;
mod laws;
mod limits;
mod memory;
mod name;
mod reader;
mod sequence;
pub mod sorted_pairs;
mod text;
mod words;
mod writer;

pub use bytes::Bytes;
pub use laws::{fields_come_back, names_are_told_apart};
pub use limits::{LAST_CLOCK, LAST_NEXT_JOB, LONGEST_CONTENT, LONGEST_TEXT};
pub use memory::OutOfMemory;
pub use name::{Name, NameOf, ProgName};
pub use reader::Reader;
pub use sequence::Sequence;
pub use text::{decimal_of, escape, trim_end};
pub use words::{Mode, Variant};
