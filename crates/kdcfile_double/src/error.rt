//! Why two copies were not opened.
ghost use Rattle.std.specs.Prelude.{◌≡◌};
ghost use Rattle.kdcfile_double.specs.Causes.{of_device, of_open};

use device_acts::warm_start::OpenError;
use kd_device::DeviceError;
use thiserror::Error;

/// Why two copies were not opened.
#[derive(Clone, Copy, Debug, PartialEq, Eq, Error)]
pub enum TwinOpenError {
    /// Not both are empty, and no copy counts, or the one that counts stands for no tables, or for tables of these texts
    /// that do not suit the generation.
    #[error("not a KDCFILE")]
    NotKdcfile,
    /// The copy that counts was made with other texts, which have this fingerprint.
    #[error("a KDCFILE of another generation")]
    OtherGeneration([u8; 32]),
    /// The sequence of the copy that counts, which is too great to go on from.
    #[error("a KDCFILE with sequence {0}")]
    Spent(u64),
    /// A call of a disk failed.
    #[error("a disk failed")]
    Failed,
    #[error("out of memory")]
    Memory,
}

impl From<DeviceError> for TwinOpenError {
    ghost from_gives = { λ e r. r ≡ of_device e };

    fn from(e: DeviceError) -> Self {
        match e {
            DeviceError::Failed => TwinOpenError::Failed,
            DeviceError::Memory => TwinOpenError::Memory,
        }
    }
}

impl From<OpenError> for TwinOpenError {
    ghost from_gives = { λ e r. r ≡ of_open e };

    fn from(e: OpenError) -> Self {
        match e {
            OpenError::NotKdcfile => TwinOpenError::NotKdcfile,
            OpenError::OtherGeneration(stored) => TwinOpenError::OtherGeneration(stored),
            OpenError::Failed => TwinOpenError::Failed,
            OpenError::Memory => TwinOpenError::Memory,
        }
    }
}
