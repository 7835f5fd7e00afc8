//! The top call: what the words ask for is done, and answered as a status.
ghost use Rattle.std.specs.{Prelude.{◌≡◌, map}, String.{string_bytes}};
ghost use Rattle.kd_device.specs.Room.{SameRoom};
ghost use Rattle.carry_cli.specs.{BackingUp.{AnswersBackup, EndsBackup}, Promise.{AnswersCarry, EndsCarry, EndsUsage}};

use crate::asking::work_of;
use crate::backing::backup_work;
use crate::carrying::carry_work;
use crate::kinds::There;
use crate::state::state;
use crate::words::{Options, backup_of, carry_of, state_of};
use call_parts::{Cause, refuse_beside};
use kd_device::{Device, DeviceError, Room, Twin};
use kdcfile_copies::kdcfile_halves::say_both;
use refusals::{Status, TextError};
use std::alloc::Global;

/// What is sent where the words are none of the forms.
const USAGE: &[u8] =
    b"USAGE: carry BASE [--drop] [--try] [--alone], carry state BASE, carry backup BASE TO\n";

// Sends the usage line.
fn usage<T: Twin>(twin: &mut T) -> Status
    ensures { EndsUsage (T.both twin.old) (T.both twin.new) result.code }
{
    match say_both(twin, USAGE) {
        Ok(()) => Status::USAGE,
        Err(DeviceError::Failed) => Status::DEVICE,
        Err(DeviceError::Memory) => Status::MEMORY,
    }
}

// Carries the files of this BASE to its texts.
fn carry_base<R: Room, T: Twin>(
    alloc: Global,
    room: &mut R,
    twin: &mut T,
    base: &[u8],
    options: Options,
) -> Status
    ensures ends { EndsCarry base.now options (R.room room.old) (R.room room.new) (T.both twin.old) (T.both twin.new) (T.leaves twin.old) (T.leaves twin.new) result.code }
    ensures same { SameRoom (R.room room.old) (R.room room.new) }
{
    match work_of(alloc, room, base) {
        Ok(work) => carry_work(alloc, twin, base, &work, options),
        Err(TextError::Refused(why)) => refuse_beside(alloc, twin, Cause::Texts(why)),
        Err(TextError::Room) => Status::ROOM,
        Err(TextError::Memory) => Status::MEMORY,
    }
}

/// Does what the words after the program's name ask for.
///
/// `BASE` with options carries the KDCFILE of the BASE, which is one file or two copies, to its texts as they are now, which
/// may ask for one or for two, and sends the report of `update`. Copies that are up to date are made alike. Where a row
/// would go, it is sent as `show` prints it, and nothing is written, unless `--drop` lets it go. With `--try` no file is
/// written, and what would be done is sent. Where one file is empty or not there beside a copy, nothing is done without
/// `--alone`.
///
/// `state BASE` tells in lines what BASE.KDCA and BASE.KDCB are, what the texts of BASE are, which copy counts, and what the
/// next run would do; `there` says whether there is a file of each name. Nothing is written.
///
/// The status is 0 where all was done, or told; 1 for words that are none of the forms; 2 for a definition or units that are
/// refused; 4 for files that are not carried; 5 where a disk or the line failed; 6 where a text could not be read; 7 for
/// want of memory; 10 where rows would go. `state` has 0, 5 and 7 alone.
pub fn carry<R: Room, T: Twin>(
    alloc: Global,
    words: &Vec<String>,
    room: &mut R,
    twin: &mut T,
    there: There,
) -> Status
    ensures { AnswersCarry (map string_bytes words.now.items) (R.room room.old) (R.room room.new) there (T.both twin.old) (T.both twin.new) (T.leaves twin.old) (T.leaves twin.new) result.code }
{
    if let Some(base) = state_of(words) {
        return state(alloc, room, twin, base, there);
    }
    match carry_of(words) {
        Some((base, options)) => carry_base(alloc, room, twin, base, options),
        None => usage(twin),
    }
}

// Backs up the files of this BASE.
fn backup_base<R: Room, T: Twin, D: Device>(
    alloc: Global,
    room: &mut R,
    twin: &mut T,
    device: &mut D,
    base: &[u8],
    to: &[u8],
) -> Status
    ensures ends { EndsBackup base.now to.now (R.room room.old) (R.room room.new) (T.both twin.old) (T.both twin.new) (D.state device.old) (D.state device.new) (D.leaves device.new) result.code }
    ensures same { SameRoom (R.room room.old) (R.room room.new) }
{
    match work_of(alloc, room, base) {
        Ok(work) => backup_work(alloc, twin, device, base, to, &work),
        Err(TextError::Refused(why)) => refuse_beside(alloc, twin, Cause::Texts(why)),
        Err(TextError::Room) => Status::ROOM,
        Err(TextError::Memory) => Status::MEMORY,
    }
}

/// Backs up the files of BASE to TO.KDCA, which is attached on `device`, as the words `backup BASE TO` ask for.
///
/// What counts of BASE.KDCA and BASE.KDCB is written to the one file TO.KDCA, which is to be empty or not there, and read
/// back. The files of BASE stay as they are, and are to be as its texts ask. The file is put back as BASE.KDCA beside an
/// empty BASE.KDCB, or none, and then carried.
///
/// The status is 0 where TO.KDCA is a backup; 1 for other words; 2 for a definition or units that are refused; 4 where
/// there is no backup of the files, or TO.KDCA is not empty; 5 where a disk or the line failed; 6 where a text could not
/// be read; 7 for want of memory. After 5 and 7 TO.KDCA may be unfinished.
pub fn backup<R: Room, T: Twin, D: Device>(
    alloc: Global,
    words: &Vec<String>,
    room: &mut R,
    twin: &mut T,
    device: &mut D,
) -> Status
    ensures { AnswersBackup (map string_bytes words.now.items) (R.room room.old) (R.room room.new) (T.both twin.old) (T.both twin.new) (D.state device.old) (D.state device.new) (D.leaves device.new) result.code }
{
    match backup_of(words) {
        Some((base, to)) => {
            backup_base(alloc, room, twin, device, base.as_bytes(), to.as_bytes())
        }
        None => usage(twin),
    }
}
