//! A second implementation of the trait `Store`: a content in a file of two whole images and a selector between them.
//! Each commit writes all records. The program does not stand on it: it shows that the trait asks for nothing that pages
//! alone can give, and the tests try both stores by one table of commits.
//!
//! It stands on kdcfile_store, whose trait it meets, and on kdcfile_layout, whose words on places and writes it shares.
//! Its contract says that bytes are loaded exactly where they stand for an image, and that during a commit a stop leaves
//! the old image or the new one, after `Ok` the new one alone.

mod commit;
mod head;
mod image;
mod loading;
mod making;
mod read_root;
mod record;
mod root;
mod spell;
mod whole;

pub use whole::WholeStore;
