//! A commit that is being prepared: the slots of a directory in memory, with an index of their keys, which are changed
//! where they are and can be taken back, and a draft of the next layout with the pages that are written for it and the
//! pages that it frees.
//!
//! It stands on kdcfile_layout and its pool of pages, and on kd_records. To the store, its contract says that what is
//! prepared on the pages of a plan is, with its root written, the image of the content that a patch makes, which pages
//! only the old image names, and that the slots are given back as they were where the commit is not made. A whole
//! content can be drafted too, over a directory that is written anew.
#![tactic(auto)]

mod draft;
mod parts;
mod stale;
mod table;
mod table_draft;

pub use draft::{Draft, DraftParts};
pub use table::Table;
pub use table_draft::TableDraft;
