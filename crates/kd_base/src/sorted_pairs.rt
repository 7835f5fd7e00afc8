//! Pairs of keys and values in ascending order of the keys.
//!
//! Of the other pieces it uses want of memory alone. To the layers above, its contract says that a key's value is the
//! one found in the list of pairs, that a pair put in is in its place in the order, that one taken out is gone, and
//! that a call that fails changes nothing.

mod ordered;
mod pairs;
mod walk;

pub use ordered::OrderedMap;
pub use pairs::{SortedPairs, place_of};
pub use walk::Pairs;
