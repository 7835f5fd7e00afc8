//! A KDCFILE on two disks: two copies that are kept alike, and a run that goes on with one of them.
//!
//! It stands on kdcfile_copies, whose kdcfile_halves reads, makes and commits a copy on one half of a twin, and whose
//! kdcfile_mending writes one half anew from the other one; and for the tables on device_acts, with its warm_start,
//! record_codec and table_fit. To the call above, its contract says which copy counts and why two files are refused,
//! that at every stop the copy that counts has the content with the patch or without it, as has each half on which no
//! call failed, that a half is lost only where a call on it failed, and that wherever it is not answered that calls failed,
//! none did on some half.
#![tactic(auto)]

mod alike;
mod choosing;
mod commit;
mod error;
mod mend;
mod one_half;
mod opening;
mod reading;
mod store;

pub use alike::are_alike;
pub use error::TwinOpenError;
pub use opening::{are_empty, opened};
pub use reading::{copy_in, read_both};
pub use store::TwinStore;
