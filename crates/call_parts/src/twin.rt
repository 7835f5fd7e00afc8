//! The same over two disks: both files of a BASE are attached and opened, and a line is sent beside them.

mod missing;
mod opening;
mod refusing;

pub use opening::{attach_both, find_missing, look_at_copies, open_copies, open_unless_missing};
pub use refusing::refuse_beside;
