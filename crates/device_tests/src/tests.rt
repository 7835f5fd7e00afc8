//! Each module has the tests of one crate, or of two that meet one trait, with expected values from the written profile.

mod devices;
mod host;
mod stores;
