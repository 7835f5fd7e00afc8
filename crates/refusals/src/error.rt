//! Why texts ask for nothing.

use application_read::ApplicationFault;
use audit_trail::TrailFault;
use kd_device::DeviceError;
use script_read::ScriptFault;
use thiserror::Error;

/// Why a call does nothing with its texts.
#[derive(Debug, Clone, Copy)]
pub enum Refusal {
    /// The definition and the units make no application.
    Application(ApplicationFault),
    /// They make one whose KDCFILE has two copies, by the MAX statement at this line, and the call runs over one file.
    Double(u32),
    /// The script has no commands.
    Script(ScriptFault),
    /// The trail is none of these texts, or begins with tables that do not suit them.
    Trail(TrailFault),
}

/// Why a call does nothing with its KDCFILE, or finds that its trail does not hold.
#[derive(Debug, Clone, Copy)]
pub enum FileRefusal {
    /// It stands for no tables, or for some of these texts that do not suit the generation.
    NotKdcfile,
    /// It was made with other texts, which have this fingerprint.
    OtherGeneration([u8; 32]),
    /// It has this BLKSIZE, in bytes, and the generation another.
    OtherBlksize(u32),
    /// It has this PGPOOL, in pages, and the generation a smaller one.
    SmallerPool(u32),
    /// So many GSSBs would be carried, and GSSBS is less.
    TooManyGssbs(u32),
    /// The rows that would be carried are charged so many pages, and PGPOOL is less.
    TooLarge(u64),
    /// It is kept twice, and the sequence of the copy that counts is too great to go on from.
    SequenceSpent,
    /// It is kept twice, and two copies are not carried to another generation.
    TwoCopies,
    /// An entry of the trail does not hold: the first such one has this number, from 1.
    Differs(u64),
}

/// Why the texts of a call ask for nothing.
#[derive(Clone, Copy, Debug, Error)]
pub enum TextError {
    /// A text is not there, or could not be read.
    #[error("a text could not be read")]
    Room,
    #[error("a text is refused")]
    Refused(Refusal),
    #[error("out of memory")]
    Memory,
}

impl From<DeviceError> for TextError {
    ghost use Rattle.std.specs.Prelude.{◌≡◌};
    ghost use Rattle.refusals.specs.Causes.{of_room};

    ghost from_gives = { λ e r. r ≡ of_room e };

    fn from(e: DeviceError) -> Self {
        match e {
            DeviceError::Failed => TextError::Room,
            DeviceError::Memory => TextError::Memory,
        }
    }
}

impl From<ApplicationFault> for TextError {
    ghost use Rattle.std.specs.Prelude.{◌≡◌};
    ghost use Rattle.refusals.specs.Causes.{of_application};

    ghost from_gives = { λ e r. r ≡ of_application e };

    fn from(e: ApplicationFault) -> Self {
        match e {
            ApplicationFault::Memory => TextError::Memory,
            fault => TextError::Refused(Refusal::Application(fault)),
        }
    }
}

impl From<ScriptFault> for TextError {
    ghost use Rattle.std.specs.Prelude.{◌≡◌};
    ghost use Rattle.refusals.specs.Causes.{of_fault};

    ghost from_gives = { λ e r. r ≡ of_fault e };

    fn from(e: ScriptFault) -> Self {
        match e {
            ScriptFault::Memory => TextError::Memory,
            fault => TextError::Refused(Refusal::Script(fault)),
        }
    }
}

impl From<TrailFault> for TextError {
    ghost use Rattle.std.specs.Prelude.{◌≡◌};
    ghost use Rattle.refusals.specs.Causes.{of_trail};

    ghost from_gives = { λ e r. r ≡ of_trail e };

    fn from(e: TrailFault) -> Self {
        match e {
            TrailFault::Memory => TextError::Memory,
            fault => TextError::Refused(Refusal::Trail(fault)),
        }
    }
}
