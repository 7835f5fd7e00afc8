//! The names of the files of a BASE, and its texts.
ghost use Rattle.std.specs.Prelude.{◌≡◌, ◌++◌, IsTrue, IfOk, OnOk, IsErrOf, IsSome, IsSomeAnd};
ghost use Rattle.kd_device.specs.{Device.{Rose}, Room.{SameRoom, text_of}};
ghost use Rattle.refusals.specs.Texts.{NoReadFailed, shown_of};

use kd_base::LONGEST_TEXT;
use kd_device::{DeviceError, Room};
use std::alloc::{AllocError, Global};

/// BASE with an ending.
pub fn named(alloc: Global, base: &[u8], ending: &[u8]) -> Result<Vec<u8>, AllocError>
    ensures { IfOk result (λ name. name.items ≡ base.now ++ ending.now) }
{
    let mut name = Vec::from_slice(alloc, base)?;
    name.extend_from_slice(ending)?;
    Ok(name)
}

/// The text of this BASE with this ending, up to one byte past the limit.
pub fn text<R: Room>(
    alloc: Global,
    room: &mut R,
    base: &[u8],
    ending: &[u8],
) -> Result<Vec<u8>, DeviceError>
    ensures value { IfOk result (λ text. IsTrue (R.room room.old).told → IsSomeAnd (text_of (base.now ++ ending.now) (R.room room.old).texts) (λ whole. text.items ≡ shown_of whole)) }
    ensures room { IsErrOf result DeviceError.Failed → Rose (R.room room.old).faults (R.room room.new).faults }
    ensures sure { IsTrue (R.room room.old).sure → IsSome (text_of (base.now ++ ending.now) (R.room room.old).texts) → IsErrOf result DeviceError.Failed → ⊥ }
    ensures fine { OnOk result (NoReadFailed (R.room room.old) (R.room room.new)) }
    ensures memory { IsErrOf result DeviceError.Memory → NoReadFailed (R.room room.old) (R.room room.new) }
    ensures same { SameRoom (R.room room.old) (R.room room.new) }
{
    let Ok(name) = named(alloc, base, ending) else {
        return Err(DeviceError::Memory);
    };
    room.read(alloc, &name, LONGEST_TEXT as u64)
}
