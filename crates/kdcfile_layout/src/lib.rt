//! What the bytes of a KDCFILE stand for: pages of records, a directory of slots, two roots and a selector; and the
//! bytes of each of these parts. Which pages are used is said by `page_pool`, and how the bytes are read by
//! `kdcfile_read`; `kdcfile_images` makes a file, and commits an image.
//!
//! It stands on kd_device and kd_records. To the crates above, its definitions say which content bytes stand for and
//! where its parts are; its contract says which bytes a part is written as, and what a stop leaves where pages that the
//! selected image does not name are written and then selected, or where a file is made.
#![tactic(auto)]

mod chain;
mod commit;
mod fields;
mod joining;
pub mod kdcfile_images;
pub mod kdcfile_read;
mod laws;
mod making;
mod page;
pub mod page_pool;
mod part;
mod series;
mod sizes;
mod spell;
mod synced;
mod writes;

pub use chain::{Chain, Slots};
pub use commit::commit_pages;
pub use fields::{u32_in, u64_in};
pub use joining::joined;
pub use laws::worked_rows;
pub use making::make_file;
pub use page::PageWrite;
pub use part::read_part;
pub use sizes::{directory_pages, page_count};
pub use spell::{NO_PAGE, directory_page, page_place, put_chain};
pub use synced::{bring_to_rest, write_synced};
