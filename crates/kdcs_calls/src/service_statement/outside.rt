//! What a statement looks at beside the locks and its transaction.

use application_types::generation::Generation;
use application_types::units::Units;
use kdcs_types::Tables;
use std::alloc::Global;

/// What a statement looks at, and does not change.
#[derive(Clone, Copy)]
pub struct Outside<'a> {
    pub alloc: Global,
    pub generation: &'a Generation,
    pub units: &'a Units,
    pub tables: &'a Tables,
}
