//! What the files of a BASE are, in lines.
ghost use Rattle.std.specs.Prelude.{◌≡◌, ◌⊎◌, IsTrue, IfOk, IsErrOf, List, ℕ};
ghost use Rattle.kd_device.specs.{Room.{RoomState, SameRoom}, declared.half.Half.TheVariants.{First, Second}};
ghost use Rattle.kdcfile_double.specs.{MakingLaws.{RestsBoth}, Twice.{NoneRose, RoseAt}};
ghost use Rattle.call_parts.specs.LeavingTwo.{FrameTwin, MayAttachTwo};
ghost use Rattle.carry_cli.specs.{Kinds.{IsStateOf}, Promise.{AreLinesOf, EndsState}, Seeing.{AreTexts, IsSeen, IsSound}};

use crate::counting::counting_of;
use crate::kinds::{State, There};
use crate::lines::state_lines;
use crate::next::next_of;
use crate::seeing::{Seen, look};
use crate::text_kinds::{Texts, texts_of};
use kd_base::OutOfMemory;
use kd_device::{DeviceError, Room, Twin};
use kdcfile_copies::kdcfile_halves::say_both;
use refusals::Status;
use std::alloc::Global;

// What files are of which this was seen.
fn state_for(
    alloc: Global,
    there: There,
    texts: &Texts,
    first: Seen,
    second: Seen,
) -> Result<State, OutOfMemory>
    requires first { IsSound first }
    requires second { IsSound second }
    ensures { IfOk result (λ s. (a b : List ℕ) → IsSeen first a → IsSeen second b → (base : List ℕ) (room : RoomState) → AreTexts base room texts.now → IsStateOf s base room there a b) }
{
    let one = first.kind(there.first);
    let other = second.kind(there.second);
    let counting = counting_of(&first, &second);
    let next = next_of(alloc, texts, first, second)?;
    Ok(State {
        first: one,
        second: other,
        counting,
        said: texts.said(),
        next,
    })
}

// The lines for this BASE.
fn lines_for<R: Room, T: Twin>(
    alloc: Global,
    room: &mut R,
    twin: &mut T,
    base: &[u8],
    there: There,
) -> Result<Vec<u8>, DeviceError>
    ensures lines { IfOk result (λ lines. IsTrue (R.room room.old).told → IsTrue (T.both twin.old).told → AreLinesOf base.now (R.room room.old) there (T.both twin.old).first.holds (T.both twin.old).second.holds lines.items) }
    ensures rests { IsTrue (T.both twin.old).told → RestsBoth (T.both twin.old) (T.both twin.new) (T.leaves twin.old) (T.leaves twin.new) }
    ensures names { IsTrue (T.both twin.old).told → MayAttachTwo base.now (T.both twin.old) (T.both twin.new) }
    ensures failed { IsErrOf result DeviceError.Failed → RoseAt First (T.both twin.old) (T.both twin.new) ⊎ RoseAt Second (T.both twin.old) (T.both twin.new) }
    ensures fine { (IsErrOf result DeviceError.Failed → ⊥) → NoneRose (T.both twin.old) (T.both twin.new) }
    ensures frame { FrameTwin (T.both twin.old) (T.both twin.new) }
    ensures same { SameRoom (R.room room.old) (R.room room.new) }
{
    let texts = texts_of(alloc, room, base)?;
    let (first, second) = look(alloc, twin, base)?;
    let state = state_for(alloc, there, &texts, first, second)?;
    match state_lines(alloc, &state) {
        Ok(lines) => Ok(lines),
        Err(_) => Err(DeviceError::Memory),
    }
}

/// Tells what the files of this BASE are.
pub(crate) fn state<R: Room, T: Twin>(
    alloc: Global,
    room: &mut R,
    twin: &mut T,
    base: &[u8],
    there: There,
) -> Status
    ensures ends { EndsState base.now (R.room room.old) there (T.both twin.old) (T.both twin.new) result.code }
    ensures same { SameRoom (R.room room.old) (R.room room.new) }
{
    let lines = match lines_for(alloc, room, twin, base, there) {
        Ok(lines) => lines,
        Err(DeviceError::Failed) => return Status::DEVICE,
        Err(DeviceError::Memory) => return Status::MEMORY,
    };
    match say_both(twin, &lines) {
        Ok(()) => Status::DONE,
        Err(DeviceError::Failed) => Status::DEVICE,
        Err(DeviceError::Memory) => Status::MEMORY,
    }
}
