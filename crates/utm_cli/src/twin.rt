//! The program over two disks.
//!
//! Where the texts define one file it is that over one disk, over the first half; for two copies `double` opens both files,
//! runs over them and says what became of them.

mod beside;
mod double;
mod top;

pub use top::utm_twin;
