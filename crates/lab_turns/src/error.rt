//! Why a command was not performed to its end.
ghost use Rattle.std.specs.Prelude.{◌≡◌};
ghost use Rattle.lab_turns.specs.declared.error.LabError.TheVariants as errors;

use kd_base::OutOfMemory;
use std::alloc::AllocError;
use thiserror::Error;

/// Why a command was not performed to its end.
#[derive(Clone, Copy, Debug, PartialEq, Eq, Error)]
pub enum LabError {
    #[error("out of memory")]
    Memory,
    /// The listener could not take what it was told.
    #[error("the output failed")]
    Output,
    /// The monitor has done as many turns and commands as one can do: 10^18.
    #[error("the turns of a monitor are spent")]
    Spent,
}

impl From<OutOfMemory> for LabError {
    ghost from_gives = { λ _ e. e ≡ errors.Memory };

    fn from(_: OutOfMemory) -> Self {
        LabError::Memory
    }
}

impl From<AllocError> for LabError {
    ghost from_gives = { λ _ e. e ≡ errors.Memory };

    fn from(_: AllocError) -> Self {
        LabError::Memory
    }
}
