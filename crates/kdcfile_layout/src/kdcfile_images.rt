//! The two images of a KDCFILE: a file is made with no records in either, and a commit writes pages and the root of the
//! unselected image and then selects it.
//!
//! It stands on the layout. To the store above, its contract says which file is made, that a commit writes just the
//! bytes that it is given, a root and the selector, and that during it a stop leaves the old image or the new one,
//! after `Ok` the new one alone.

mod commit;
mod image;
mod laws;
mod making;
mod root;

pub use commit::commit_image;
pub use image::{Image, Root};
pub use laws::worked_rows;
pub use making::create;
