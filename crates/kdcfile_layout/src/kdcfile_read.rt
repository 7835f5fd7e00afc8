//! How the bytes of a KDCFILE are read: its head, the selected root with the numbers of the directory's pages, the
//! slots of a directory page, and a page of a record.
//!
//! It stands on the layout and has no device. To what loads a file, its definitions say what is read from which bytes;
//! its contract says that each function answers just that, that what is in a file is read and what is read is there,
//! and that given bytes stand for one content at most.

mod head;
mod laws;
mod part;
mod root;
mod slot;

pub use head::{FRONT_LEN, Head, head_of};
pub use laws::{chains, files, one_meaning, slots, worked_rows};
pub use part::{Part, part_of, whole_of};
pub use root::{ROOT_LEN, RootFields, numbers_of, root_of};
pub use slot::{First, FirstSlots, slots_of};
