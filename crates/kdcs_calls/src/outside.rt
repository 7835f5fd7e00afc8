//! What a call looks at beside the locks and its transaction.

use application_types::generation::Generation;
use kdcs_types::Tables;
use std::alloc::Global;

/// What a call looks at, and does not change.
#[derive(Clone, Copy)]
pub(crate) struct CallOutside<'a> {
    pub(crate) alloc: Global,
    pub(crate) generation: &'a Generation,
    pub(crate) tables: &'a Tables,
}
