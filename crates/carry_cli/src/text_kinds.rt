//! The texts of a BASE, which may be missing or refused.
ghost use Rattle.std.specs.Prelude.{◌≡◌, IsTrue, IfOk};
ghost use Rattle.kd_device.specs.Room.{SameRoom};
ghost use Rattle.carry_cli.specs.Seeing.{AreDouble, AreTexts, said_of};

use crate::kinds::Said;
use call_parts::{Asked, TwoFiles, Word, Work, read_texts};
use kd_base::OutOfMemory;
use kd_device::Room;
use refusals::TextError;
use std::alloc::Global;

/// What the definition and the units of a BASE are.
#[derive(Drop)]
pub(crate) enum Texts {
    /// They make an application of one KDCFILE.
    Single(Work),
    /// They make one whose KDCFILE is kept twice.
    Double(Work),
    /// They make none.
    Refused,
    /// One of them is not there, or could not be read.
    Unread,
}

/// Reads the texts of this BASE.
pub(crate) fn texts_of<R: Room>(
    alloc: Global,
    room: &mut R,
    base: &[u8],
) -> Result<Texts, OutOfMemory>
    ensures found { IfOk result (λ t. IsTrue (R.room room.old).told → AreTexts base.now (R.room room.old) t) }
    ensures double { IfOk result AreDouble }
    ensures same { SameRoom (R.room room.old) (R.room room.new) }
{
    match read_texts(alloc, room, Word::Gen, base) {
        Ok(Asked::One(asked)) => Ok(Texts::Single(asked.into_work())),
        Ok(Asked::Two(_line, TwoFiles::Over(work, _task))) => Ok(Texts::Double(work)),
        Ok(Asked::Two(_line, TwoFiles::Refused(_why))) => Ok(Texts::Refused),
        Err(TextError::Refused(_why)) => Ok(Texts::Refused),
        Err(TextError::Room) => Ok(Texts::Unread),
        Err(TextError::Memory) => Err(OutOfMemory),
    }
}

impl Texts {
    /// What is told of them.
    pub(crate) fn said(&self) -> Said
        ensures { result ≡ said_of self.now }
    {
        match self {
            Texts::Single(work) => Said::Single(work.fingerprint),
            Texts::Double(work) => Said::Double(work.fingerprint),
            Texts::Refused => Said::Refused,
            Texts::Unread => Said::Unread,
        }
    }
}
