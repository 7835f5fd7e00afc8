//! Why a session ended before its input did.
ghost use Rattle.std.specs.Prelude.{◌≡◌};
ghost use Rattle.live_run.specs.declared.error.LiveError.TheVariants as errors;
ghost use Rattle.live_run.specs.Causes.{of_device, of_open};

use device_acts::warm_start::OpenError;
use kd_base::OutOfMemory;
use kd_device::DeviceError;
use thiserror::Error;

/// Why a session ended before its input did.
#[derive(Clone, Copy, Debug, PartialEq, Eq, Error)]
pub enum LiveError {
    /// At a RESTART a file stands for no tables, or for tables that do not suit the generation.
    #[error("not a KDCFILE")]
    NotKdcfile,
    /// At a RESTART a file was made with other texts, which have this fingerprint.
    #[error("a KDCFILE of another generation")]
    OtherGeneration([u8; 32]),
    /// A call of the disk or of the output line failed.
    #[error("the disk or the line failed")]
    Failed,
    /// A read of the input failed.
    #[error("the input failed")]
    Input,
    /// The monitor would do more than 10^18 turns and commands since its last start, or more than 2^64 - 1 lines were typed.
    #[error("the turns of a monitor are spent")]
    Spent,
    #[error("out of memory")]
    Memory,
}

impl From<OutOfMemory> for LiveError {
    ghost from_gives = { λ _ e. e ≡ errors.Memory };

    fn from(_: OutOfMemory) -> Self {
        LiveError::Memory
    }
}

impl From<DeviceError> for LiveError {
    ghost from_gives = { λ e r. r ≡ of_device e };

    fn from(e: DeviceError) -> Self {
        match e {
            DeviceError::Failed => LiveError::Failed,
            DeviceError::Memory => LiveError::Memory,
        }
    }
}

impl From<OpenError> for LiveError {
    ghost from_gives = { λ e r. r ≡ of_open e };

    fn from(e: OpenError) -> Self {
        match e {
            OpenError::NotKdcfile => LiveError::NotKdcfile,
            OpenError::OtherGeneration(stored) => LiveError::OtherGeneration(stored),
            OpenError::Failed => LiveError::Failed,
            OpenError::Memory => LiveError::Memory,
        }
    }
}
