//! Why a call did not do what is asked for.
ghost use Rattle.std.specs.Prelude.{◌≡◌};
ghost use Rattle.kdcfile_double.specs.Causes.{of_device as of_disk};
ghost use Rattle.call_parts.specs.Causes.{of_carry, of_device, of_open, of_twin};
ghost use Rattle.call_parts.specs.declared.error.CallError.TheVariants as errors;
ghost use Rattle.call_parts.specs.declared.error.CopiesError.TheVariants as copies;

use device_acts::warm_start::OpenError;
use kd_base::OutOfMemory;
use kd_device::{DeviceError, Half};
use kd_update::UpdateError;
use kdcfile_double::TwinOpenError;
use kdcfile_update::CarryError;
use refusals::FileRefusal;
use thiserror::Error;

/// Why a call did not do what is asked for, when its texts were read.
#[derive(Clone, Copy, Debug, Error)]
pub enum CallError {
    #[error("the KDCFILE is refused, or the trail does not hold")]
    Refused(FileRefusal),
    /// Calls of the disks or the line failed, so that it could not go on.
    #[error("the disks or the line failed")]
    Failed,
    #[error("out of memory")]
    Memory,
}

/// Why the two files of a BASE were not opened.
#[derive(Clone, Copy)]
pub enum CopiesError {
    /// The file of this half is empty or not there, beside a copy with commits, which was not to be taken alone.
    Missing(Half),
    Files(TwinOpenError),
}

impl From<DeviceError> for CopiesError {
    ghost from_gives = { λ e r. r ≡ copies.Files (of_disk e) };

    fn from(e: DeviceError) -> Self {
        match e {
            DeviceError::Failed => CopiesError::Files(TwinOpenError::Failed),
            DeviceError::Memory => CopiesError::Files(TwinOpenError::Memory),
        }
    }
}

impl From<TwinOpenError> for CopiesError {
    ghost from_gives = { λ e r. r ≡ copies.Files e };

    fn from(e: TwinOpenError) -> Self {
        CopiesError::Files(e)
    }
}

impl From<OutOfMemory> for CallError {
    ghost from_gives = { λ _ r. r ≡ errors.Memory };

    fn from(_: OutOfMemory) -> Self {
        CallError::Memory
    }
}

impl From<DeviceError> for CallError {
    ghost from_gives = { λ e r. r ≡ of_device e };

    fn from(e: DeviceError) -> Self {
        match e {
            DeviceError::Failed => CallError::Failed,
            DeviceError::Memory => CallError::Memory,
        }
    }
}

impl From<OpenError> for CallError {
    ghost from_gives = { λ e r. r ≡ of_open e };

    fn from(e: OpenError) -> Self {
        match e {
            OpenError::NotKdcfile => CallError::Refused(FileRefusal::NotKdcfile),
            OpenError::OtherGeneration(stored) => {
                CallError::Refused(FileRefusal::OtherGeneration(stored))
            }
            OpenError::Failed => CallError::Failed,
            OpenError::Memory => CallError::Memory,
        }
    }
}

impl From<TwinOpenError> for CallError {
    ghost from_gives = { λ e r. r ≡ of_twin e };

    fn from(e: TwinOpenError) -> Self {
        match e {
            TwinOpenError::NotKdcfile => CallError::Refused(FileRefusal::NotKdcfile),
            TwinOpenError::OtherGeneration(stored) => {
                CallError::Refused(FileRefusal::OtherGeneration(stored))
            }
            TwinOpenError::Spent(_) => CallError::Refused(FileRefusal::SequenceSpent),
            TwinOpenError::Failed => CallError::Failed,
            TwinOpenError::Memory => CallError::Memory,
        }
    }
}

impl From<CarryError> for CallError {
    ghost from_gives = { λ e r. r ≡ of_carry e };

    fn from(e: CarryError) -> Self {
        match e {
            CarryError::Refused(UpdateError::NotKdcfile) => {
                CallError::Refused(FileRefusal::NotKdcfile)
            }
            CarryError::Refused(UpdateError::OtherBlksize(n)) => {
                CallError::Refused(FileRefusal::OtherBlksize(n))
            }
            CarryError::Refused(UpdateError::SmallerPool(n)) => {
                CallError::Refused(FileRefusal::SmallerPool(n))
            }
            CarryError::Refused(UpdateError::TooManyGssbs(n)) => {
                CallError::Refused(FileRefusal::TooManyGssbs(n))
            }
            CarryError::Refused(UpdateError::TooLarge(n)) => {
                CallError::Refused(FileRefusal::TooLarge(n))
            }
            CarryError::Failed => CallError::Failed,
            CarryError::Refused(UpdateError::Memory) | CarryError::Memory => CallError::Memory,
        }
    }
}
