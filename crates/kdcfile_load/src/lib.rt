//! Loading a KDCFILE: the image that its bytes have selected is read from a device, with its records.
//!
//! It stands on kdcfile_layout, whose module kdcfile_read says what is read from which bytes. To the store above, its
//! contract says that what is loaded is what the bytes stand for, that bytes are refused only where they stand for no
//! image, that the file is on the disk as it was read, and what is known of a loaded image on any device.
#![tactic(auto)]

mod chain;
mod checking;
mod directory;
mod fault;
mod loading;
mod marks;
mod opening;
mod part;
mod records;
mod slots;
mod sorting;

pub use fault::LoadError;
pub use loading::{Loaded, load};
