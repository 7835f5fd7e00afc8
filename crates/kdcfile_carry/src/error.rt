//! Why files were not carried to new texts.
ghost use Rattle.std.specs.Prelude.{◌≡◌};
ghost use Rattle.kdcfile_carry.specs.declared.error.FilesError.TheVariants as errors;
ghost use Rattle.kdcfile_carry.specs.Causes.{of_device, of_judgement};

use kd_base::OutOfMemory;
use kd_device::DeviceError;
use kd_update::UpdateError;
use thiserror::Error;

/// Why files were not carried to new texts.
#[derive(Clone, Copy, Debug, PartialEq, Eq, Error)]
pub enum FilesError {
    /// The files, or the generation, are such that they are not carried. It is never want of memory.
    #[error("refused: {0}")]
    Refused(UpdateError),
    /// The first file is a KDCFILE by itself, and the second one a copy: each could be the one that is meant.
    #[error("a KDCFILE beside a copy")]
    TwoMeanings,
    /// The sequence of the copy that counts, after which no commit may come.
    #[error("a KDCFILE with sequence {0}")]
    Spent(u64),
    /// A call of a disk or of the line failed.
    #[error("a device failed")]
    Failed,
    #[error("out of memory")]
    Memory,
}

impl From<OutOfMemory> for FilesError {
    ghost from_gives = { λ _ e. e ≡ errors.Memory };

    fn from(_: OutOfMemory) -> Self {
        FilesError::Memory
    }
}

impl From<DeviceError> for FilesError {
    ghost from_gives = { λ e r. r ≡ of_device e };

    fn from(e: DeviceError) -> Self {
        match e {
            DeviceError::Failed => FilesError::Failed,
            DeviceError::Memory => FilesError::Memory,
        }
    }
}

impl From<UpdateError> for FilesError {
    ghost from_gives = { λ e r. r ≡ of_judgement e };

    fn from(e: UpdateError) -> Self {
        match e {
            UpdateError::Memory => FilesError::Memory,
            why => FilesError::Refused(why),
        }
    }
}
