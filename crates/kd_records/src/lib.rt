//! Records: what a KDCFILE keeps, as keys with values, and the changes that one commit makes to them.
//!
//! It stands on kd_base and its sorted pairs. To the store and to the crates that turn rows into records, its
//! definitions say what a content is, which content a patch makes of another, and how many pages a record is charged.
//! Its contract says that `patched` answers just that content and `charge` just that number, that a content that is
//! patched in place is that content, and the one before where it is taken back, that a patch sets what it sets, removes
//! what it removes and leaves the rest, that a content stays one that a file can keep, and that charged records fit
//! into their pages.
#![tactic(auto)]

mod content;
mod in_place;
mod key;
mod laws;
mod pages;

pub use content::{Content, Patch, PatchItems, Records};
pub use in_place::PatchedContent;
pub use key::RecordKey;
pub use laws::{charged_records_fit, patches_keep_contents, patches_say_what_is_found};
pub use pages::charge;
