//! Why a session over two copies ended before its input did.
ghost use Rattle.std.specs.Prelude.{◌≡◌};
ghost use Rattle.live_cli.specs.Causes.{of_live, of_opening};

use call_parts::CopiesError;
use kd_device::Half;
use kdcfile_double::TwinOpenError;
use live_run::LiveError;
use refusals::FileRefusal;

/// Why a session over two copies ended before its input did.
#[derive(Clone, Copy)]
pub(crate) enum SessionError {
    /// The file of this half is empty or not there, beside a copy with commits, which was not to be taken alone.
    Missing(Half),
    /// The KDCFILE is refused.
    Refused(FileRefusal),
    /// Calls of the disks or the line failed, so that it could not go on.
    Failed,
    /// A read of the input failed.
    Input,
    /// Memory ran out, or the turns and commands of a monitor are spent.
    Memory,
}

impl From<CopiesError> for SessionError {
    ghost from_gives = { λ e r. r ≡ of_opening e };

    fn from(e: CopiesError) -> Self {
        match e {
            CopiesError::Missing(half) => SessionError::Missing(half),
            CopiesError::Files(TwinOpenError::NotKdcfile) => {
                SessionError::Refused(FileRefusal::NotKdcfile)
            }
            CopiesError::Files(TwinOpenError::OtherGeneration(stored)) => {
                SessionError::Refused(FileRefusal::OtherGeneration(stored))
            }
            CopiesError::Files(TwinOpenError::Spent(_)) => {
                SessionError::Refused(FileRefusal::SequenceSpent)
            }
            CopiesError::Files(TwinOpenError::Failed) => SessionError::Failed,
            CopiesError::Files(TwinOpenError::Memory) => SessionError::Memory,
        }
    }
}

impl From<LiveError> for SessionError {
    ghost from_gives = { λ e r. r ≡ of_live e };

    fn from(e: LiveError) -> Self {
        match e {
            LiveError::NotKdcfile => SessionError::Refused(FileRefusal::NotKdcfile),
            LiveError::OtherGeneration(stored) => {
                SessionError::Refused(FileRefusal::OtherGeneration(stored))
            }
            LiveError::Failed => SessionError::Failed,
            LiveError::Input => SessionError::Input,
            LiveError::Spent | LiveError::Memory => SessionError::Memory,
        }
    }
}
