//! Why a call did not do what it was to.
ghost use Rattle.std.specs.Prelude.{◌≡◌};
ghost use Rattle.kd_device.specs.declared.error.DeviceError.TheVariants as errors;

use crate::device::Failed;
use kd_base::OutOfMemory;
use thiserror::Error;

/// A call of a device or of a room failed, or memory ran out before it.
#[derive(Clone, Copy, Debug, PartialEq, Eq, Error)]
pub enum DeviceError {
    /// A call failed, and the count of faults that goes with it rose. A text may not be there. What a KDCFILE has is known
    /// again when it is loaded: the old content or the new one.
    #[error("the device failed")]
    Failed,
    /// Memory ran out, before the first write of a commit: the file is as it was.
    #[error("out of memory")]
    Memory,
}

impl From<OutOfMemory> for DeviceError {
    ghost from_gives = { λ _ e. e ≡ errors.Memory };

    fn from(_: OutOfMemory) -> Self {
        DeviceError::Memory
    }
}

impl From<Failed> for DeviceError {
    ghost from_gives = { λ _ e. e ≡ errors.Failed };

    fn from(_: Failed) -> Self {
        DeviceError::Failed
    }
}
