//! Why a file was not loaded.
ghost use Rattle.std.specs.Prelude.{◌≡◌};
ghost use Rattle.kdcfile_load.specs.Causes.{of_device};

use kd_device::DeviceError;
use thiserror::Error;

/// Why a file was not loaded.
#[derive(Clone, Copy, Debug, PartialEq, Eq, Error)]
pub enum LoadError {
    /// The bytes stand for no image.
    #[error("not a KDCFILE")]
    NotKdcfile,
    #[error("the disk failed")]
    Failed,
    #[error("out of memory")]
    Memory,
}

impl From<DeviceError> for LoadError {
    ghost from_gives = { λ e r. r ≡ of_device e };

    fn from(e: DeviceError) -> Self {
        match e {
            DeviceError::Failed => LoadError::Failed,
            DeviceError::Memory => LoadError::Memory,
        }
    }
}
