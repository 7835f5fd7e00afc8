//! Why a KDCFILE was not opened.
ghost use Rattle.std.specs.Prelude.{◌≡◌};
ghost use Rattle.device_acts.specs.declared.warm_start.error.OpenError.TheVariants as errors;
ghost use Rattle.device_acts.specs.Causes.{of_device, of_load};

use kd_base::OutOfMemory;
use kd_device::{DeviceError, Failed};
use kdcfile_store::LoadError;
use thiserror::Error;

/// Why a KDCFILE was not opened.
#[derive(Clone, Copy, Debug, PartialEq, Eq, Error)]
pub enum OpenError {
    /// It is not empty, and stands for no tables, or for tables of these texts that do not suit the generation.
    #[error("not a KDCFILE")]
    NotKdcfile,
    /// It was made with other texts, which have this fingerprint.
    #[error("a KDCFILE of another generation")]
    OtherGeneration([u8; 32]),
    /// A disk call failed.
    #[error("the disk failed")]
    Failed,
    #[error("out of memory")]
    Memory,
}

impl From<OutOfMemory> for OpenError {
    ghost from_gives = { λ _ e. e ≡ errors.Memory };

    fn from(_: OutOfMemory) -> Self {
        OpenError::Memory
    }
}

impl From<Failed> for OpenError {
    ghost from_gives = { λ _ e. e ≡ errors.Failed };

    fn from(_: Failed) -> Self {
        OpenError::Failed
    }
}

impl From<DeviceError> for OpenError {
    ghost from_gives = { λ e r. r ≡ of_device e };

    fn from(e: DeviceError) -> Self {
        LoadError::from(e).into()
    }
}

impl From<LoadError> for OpenError {
    ghost from_gives = { λ e r. r ≡ of_load e };

    fn from(e: LoadError) -> Self {
        match e {
            LoadError::NotKdcfile => OpenError::NotKdcfile,
            LoadError::Failed => OpenError::Failed,
            LoadError::Memory => OpenError::Memory,
        }
    }
}
