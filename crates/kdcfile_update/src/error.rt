//! Why a KDCFILE was not carried to a new generation.
ghost use Rattle.std.specs.Prelude.{◌≡◌};
ghost use Rattle.kdcfile_update.specs.declared.error.CarryError.TheVariants as errors;
ghost use Rattle.kdcfile_update.specs.Causes.{of_device, of_judgement, of_open};

use kd_update::UpdateError;
use device_acts::warm_start::OpenError;
use kd_base::OutOfMemory;
use kd_device::DeviceError;
use thiserror::Error;

/// Why a KDCFILE was not carried to a new generation.
#[derive(Clone, Copy, Debug, PartialEq, Eq, Error)]
pub enum CarryError {
    /// The file, or the generation, is such that it is not carried. It is never want of memory.
    #[error("refused: {0}")]
    Refused(UpdateError),
    /// A call of the disk or the line failed.
    #[error("the device failed")]
    Failed,
    #[error("out of memory")]
    Memory,
}

impl From<OutOfMemory> for CarryError {
    ghost from_gives = { λ _ e. e ≡ errors.Memory };

    fn from(_: OutOfMemory) -> Self {
        CarryError::Memory
    }
}

impl From<DeviceError> for CarryError {
    ghost from_gives = { λ e r. r ≡ of_device e };

    fn from(e: DeviceError) -> Self {
        match e {
            DeviceError::Failed => CarryError::Failed,
            DeviceError::Memory => CarryError::Memory,
        }
    }
}

impl From<OpenError> for CarryError {
    ghost from_gives = { λ e r. r ≡ of_open e };

    fn from(e: OpenError) -> Self {
        match e {
            // A file is opened here whatever its texts are.
            OpenError::NotKdcfile | OpenError::OtherGeneration(_) => {
                CarryError::Refused(UpdateError::NotKdcfile)
            }
            OpenError::Failed => CarryError::Failed,
            OpenError::Memory => CarryError::Memory,
        }
    }
}

impl From<UpdateError> for CarryError {
    ghost from_gives = { λ e r. r ≡ of_judgement e };

    fn from(e: UpdateError) -> Self {
        match e {
            UpdateError::Memory => CarryError::Memory,
            why => CarryError::Refused(why),
        }
    }
}
