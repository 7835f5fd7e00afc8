//! Why a half was not mended.
ghost use Rattle.std.specs.Prelude.{◌≡◌};
ghost use Rattle.kdcfile_copies.specs.declared.kdcfile_mending.error.CopyError.TheVariants as errors;

use kd_base::OutOfMemory;
use kd_device::Failed;
use thiserror::Error;

/// A call on one of the halves failed, or memory ran out. What the target has then is told by the contract of the copy.
#[derive(Clone, Copy, Debug, PartialEq, Eq, Error)]
pub enum CopyError {
    /// A call on the half that is copied failed, and the count of its faults rose.
    #[error("the half that is copied failed")]
    Source,
    /// A call on the half that is mended failed, and the count of its faults rose.
    #[error("the half that is mended failed")]
    Target,
    /// Memory ran out.
    #[error("out of memory")]
    Memory,
}

impl From<OutOfMemory> for CopyError {
    ghost from_gives = { λ _ e. e ≡ errors.Memory };

    fn from(_: OutOfMemory) -> Self {
        CopyError::Memory
    }
}

impl From<Failed> for CopyError {
    ghost from_gives = { λ _ e. e ≡ errors.Target };

    /// A call of a half is one on the target, unless it is told apart where it is made.
    fn from(_: Failed) -> Self {
        CopyError::Target
    }
}
