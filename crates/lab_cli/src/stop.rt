//! Why a call did nothing of what is asked for.
ghost use Rattle.std.specs.Prelude.{◌≡◌};
ghost use Rattle.lab_cli.specs.declared.stop.Stop.TheVariants as stops;
ghost use Rattle.lab_cli.specs.Causes.{of_device, of_lab, of_text};

use kd_base::OutOfMemory;
use kd_device::DeviceError;
use lab_turns::LabError;
use refusals::{Refusal, TextError};
use std::alloc::AllocError;
use thiserror::Error;

/// Why a call did nothing of what is asked for, or did not go on.
#[derive(Clone, Copy, Debug, Error)]
pub enum Stop {
    #[error("a text is refused")]
    Texts(Refusal),
    /// The KDCFILE is none, or keeps no tables that suit the application.
    #[error("not a KDCFILE")]
    NotKdcfile,
    /// It was made with other texts, which have this fingerprint.
    #[error("a KDCFILE of another generation")]
    OtherGeneration([u8; 32]),
    /// The sequence of the copy that counts is too great to go on from.
    #[error("a KDCFILE whose sequence is spent")]
    Spent,
    /// A text is not there, or could not be read.
    #[error("a text could not be read")]
    Room,
    #[error("the output failed")]
    Output,
    #[error("out of memory")]
    Memory,
}

impl From<OutOfMemory> for Stop {
    ghost from_gives = { λ _ r. r ≡ stops.Memory };

    fn from(_: OutOfMemory) -> Self {
        Stop::Memory
    }
}

impl From<AllocError> for Stop {
    ghost from_gives = { λ _ r. r ≡ stops.Memory };

    fn from(_: AllocError) -> Self {
        Stop::Memory
    }
}

impl From<DeviceError> for Stop {
    ghost from_gives = { λ e r. r ≡ of_device e };

    fn from(e: DeviceError) -> Self {
        match e {
            DeviceError::Failed => Stop::Room,
            DeviceError::Memory => Stop::Memory,
        }
    }
}

impl From<LabError> for Stop {
    ghost from_gives = { λ e r. r ≡ of_lab e };

    fn from(e: LabError) -> Self {
        match e {
            LabError::Memory => Stop::Memory,
            // No call does 10^18 turns.
            LabError::Output | LabError::Spent => Stop::Output,
        }
    }
}

impl From<TextError> for Stop {
    ghost from_gives = { λ e r. r ≡ of_text e };

    fn from(e: TextError) -> Self {
        match e {
            TextError::Refused(why) => Stop::Texts(why),
            TextError::Room => Stop::Room,
            TextError::Memory => Stop::Memory,
        }
    }
}
