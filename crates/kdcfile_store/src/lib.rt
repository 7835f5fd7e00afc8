//! What is kept: a content of records in a KDCFILE, changed by commits that are whole or absent.
//!
//! It stands on kdcfile_layout, kdcfile_load and page_drafts, whose disk rules it turns into one promise, and on
//! kd_records. To the monitor's run, the trait `Store` says that at every stop the file stands for the content with the
//! patch or without it, after an `Ok` for the new content alone, and how many bytes a commit writes at most. The trait
//! names contents and nothing of images or pages; `PagedStore` keeps them in pages, and a commit writes only what it
//! changes. It also carries a whole content into the file in place of its own, in one commit, with another fingerprint
//! and a greater PGPOOL.
#![tactic(auto)]

mod carrying;
mod filed;
mod fresh;
mod next;
mod paged;
mod plan;
mod store;

pub use kdcfile_load::LoadError;
pub use paged::PagedStore;
pub use store::{Store, StoreLimits};
