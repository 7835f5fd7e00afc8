//! Want of memory, the one answer that no clause ties to a cause.

use std::alloc::{AllocError, AllocFailed};
use thiserror::Error;

/// Memory ran out. What a call that answers this has left is said by its contract.
#[derive(Clone, Copy, Debug, PartialEq, Eq, Error)]
#[error("out of memory")]
pub struct OutOfMemory;

impl From<AllocError> for OutOfMemory {
    fn from(_: AllocError) -> Self {
        OutOfMemory
    }
}

impl<T: Drop> From<AllocFailed<T>> for OutOfMemory {
    fn from(_: AllocFailed<T>) -> Self {
        OutOfMemory
    }
}
