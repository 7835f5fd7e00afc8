//! One half of a twin is written anew from the other one, byte by byte: a file that is kept twice, and of which one copy
//! is behind or was not made, has both copies again.
//!
//! It stands on kd_device and kdcfile_layout. To what keeps a KDCFILE twice, its contract says that a stop at any moment
//! leaves the source as it was, and of the target what it was, a file that stands for no image, or a whole copy.

mod copying;
mod error;
mod gate;
mod laws;
mod reading;
mod synced;

pub use copying::copy_over;
pub use error::CopyError;
pub use gate::shut_gate;
pub use laws::{copies_mean_the_same, shut_files_mean_nothing};
