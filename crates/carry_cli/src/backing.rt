//! The files of a BASE are backed up to a file, and it is said.
ghost use Rattle.std.specs.{Prelude.{◌≡◌, ◌⊎◌, ◌++◌, [], IsTrue, IfOk, IsErrOf}, String.{string_bytes}};
ghost use Rattle.kd_device.specs.{Device.{Frame, Rose, SameFaults, SameNames}, Rest.{Rests}};
ghost use Rattle.kdcfile_double.specs.{Opening.{SameFiles}, Twice.{FrameBoth, NoneRose}};
ghost use Rattle.kdcfile_carry.specs.Doing.{RoseOnOne};
ghost use Rattle.call_parts.specs.{Asking.{update_errand}, Leaving.{MayAttach}, Words.{file_name}};
ghost use Rattle.carry_cli.specs.{BackingUp.{EndsBackupOver, IsBackup, LeavesBackup, backup_line, backup_status}, Carrying.{NoneIsMissing}, Doing.{no_backup}, Words.{plain}, Writing.{BackupWrites}};

use crate::answer::{Hindrance, hindrance_line};
use crate::carrying::hindrance_of;
use call_parts::{Work, find_missing};
use kd_device::{Device, DeviceError, Twin};
use kdcfile_carry::{BackUpError, FilesError, back_up};
use kdcfile_copies::kdcfile_halves::say_both;
use refusals::{Status, named};
use std::alloc::{AllocError, Global};

/// What becomes of the backup of a BASE.
#[derive(Clone, Copy)]
pub enum BackupAnswer {
    /// The file stands for the same tables.
    Ready,
    /// The files of the BASE are not as its texts ask for them.
    Hindered(Hindrance),
    /// They are to be carried to these texts first.
    OtherTexts,
    /// The file that is to be written has bytes.
    NotEmpty,
    /// What is read of it is not what was written.
    Differs,
}

impl BackupAnswer {
    // What a call says with this answer.
    fn line(&self, alloc: Global) -> Result<String, AllocError>
        ensures { IfOk result (λ line. string_bytes line ≡ backup_line self.now) }
    {
        match self {
            BackupAnswer::Ready => String::from_str(alloc, "BACKUP READY\n"),
            BackupAnswer::Hindered(why) => hindrance_line(alloc, *why),
            BackupAnswer::OtherTexts => String::from_str(alloc, "KDCFILE OTHER GENERATION\n"),
            BackupAnswer::NotEmpty => String::from_str(alloc, "BACKUP NOT EMPTY\n"),
            BackupAnswer::Differs => String::from_str(alloc, "BACKUP DIFFERS\n"),
        }
    }

    fn status(&self) -> Status
        ensures { result.code ≡ backup_status self.now }
    {
        match self {
            BackupAnswer::Ready => Status::DONE,
            BackupAnswer::Hindered(_) => Status::FILE,
            BackupAnswer::OtherTexts => Status::FILE,
            BackupAnswer::NotEmpty => Status::FILE,
            BackupAnswer::Differs => Status::FILE,
        }
    }
}

// What it means that files were not backed up.
fn no_backup(why: BackUpError) -> Result<BackupAnswer, DeviceError>
    ensures { result ≡ no_backup why }
{
    match why {
        BackUpError::Files(why) => match hindrance_of(why) {
            Ok(why) => Ok(BackupAnswer::Hindered(why)),
            Err(error) => Err(error),
        },
        BackUpError::OtherTexts => Ok(BackupAnswer::OtherTexts),
        BackUpError::NotEmpty => Ok(BackupAnswer::NotEmpty),
        BackUpError::Differs => Ok(BackupAnswer::Differs),
        BackUpError::Failed => Err(DeviceError::Failed),
        BackUpError::Memory => Err(DeviceError::Memory),
    }
}

// Attaches the file to which these files are backed up.
fn attach_to<D: Device>(alloc: Global, device: &mut D, to: &[u8]) -> Result<(), DeviceError>
    ensures rests { IsTrue (D.state device.old).told → Rests (D.state device.old) (D.state device.new) (D.leaves device.old) (D.leaves device.new) }
    ensures names { IsTrue (D.state device.old).told → MayAttach (file_name to.now) (D.state device.old) (D.state device.new) }
    ensures failed { IsErrOf result DeviceError.Failed → Rose (D.state device.old).disk_faults (D.state device.new).disk_faults }
    ensures fine { (IsErrOf result DeviceError.Failed → ⊥) → SameFaults (D.state device.old) (D.state device.new) }
    ensures frame { Frame (D.state device.old) (D.state device.new) }
{
    let Ok(name) = named(alloc, to, b".KDCA") else {
        return Err(DeviceError::Memory);
    };
    device.reserve(1, name.len() as u64, 0)?;
    device.attach(&name)?;
    Ok(())
}

// The same where none of the files is missing.
fn back_up_over<T: Twin, D: Device>(
    alloc: Global,
    twin: &mut T,
    device: &mut D,
    work: &Work,
) -> Result<BackupAnswer, DeviceError>
    ensures is { IfOk result (λ x. IsTrue (T.both twin.old).told → IsTrue (D.state device.old).told → NoneIsMissing plain (T.both twin.old).first.holds (T.both twin.old).second.holds → IsBackup (update_errand work.now) x (T.both twin.old).first.holds (T.both twin.old).second.holds (D.state device.old).holds (D.state device.new) (D.leaves device.new)) }
    ensures files { IsTrue (T.both twin.old).told → SameFiles (T.both twin.old) (T.both twin.new) }
    ensures still { IsTrue (D.state device.old).told → ((D.state device.old).holds ≡ [] → ⊥) → (D.state device.new).holds ≡ (D.state device.old).holds }
    ensures silent { IsTrue (D.state device.old).told → (D.state device.new).sent ≡ (D.state device.old).sent }
    ensures written { IsTrue (T.both twin.old).told → IsTrue (D.state device.old).told → BackupWrites (update_errand work.now) (T.both twin.old) (D.state device.old) (D.state device.new) }
    ensures failed { IsErrOf result DeviceError.Failed → RoseOnOne (T.both twin.old) (T.both twin.new) ⊎ Rose (D.state device.old).disk_faults (D.state device.new).disk_faults }
    ensures fine { (IsErrOf result DeviceError.Failed → ⊥) → NoneRose (T.both twin.old) (T.both twin.new) × SameFaults (D.state device.old) (D.state device.new) }
    ensures frame { FrameBoth (T.both twin.old) (T.both twin.new) }
    ensures to_frame { Frame (D.state device.old) (D.state device.new) }
    ensures to_names { SameNames (D.state device.old) (D.state device.new) }
{
    let generation = &work.application.generation;
    match back_up(alloc, twin, device, generation, &work.fingerprint) {
        Ok(()) => Ok(BackupAnswer::Ready),
        Err(why) => no_backup(why),
    }
}

// What becomes of the backup of this BASE.
fn answer_for<T: Twin, D: Device>(
    alloc: Global,
    twin: &mut T,
    device: &mut D,
    base: &[u8],
    to: &[u8],
    work: &Work,
) -> Result<BackupAnswer, DeviceError>
    ensures is { IfOk result (λ x. IsTrue (T.both twin.old).told → IsTrue (D.state device.old).told → IsBackup (update_errand work.now) x (T.both twin.old).first.holds (T.both twin.old).second.holds (D.state device.old).holds (D.state device.new) (D.leaves device.new)) }
    ensures leaves { LeavesBackup base.now to.now (T.both twin.old) (T.both twin.new) (D.state device.old) (D.state device.new) }
    ensures sent { IsTrue (T.both twin.old).told → (T.both twin.new).sent ≡ (T.both twin.old).sent }
    ensures written { IsTrue (T.both twin.old).told → IsTrue (D.state device.old).told → BackupWrites (update_errand work.now) (T.both twin.old) (D.state device.old) (D.state device.new) }
    ensures failed { IsErrOf result DeviceError.Failed → RoseOnOne (T.both twin.old) (T.both twin.new) ⊎ Rose (D.state device.old).disk_faults (D.state device.new).disk_faults }
    ensures fine { (IsErrOf result DeviceError.Failed → ⊥) → NoneRose (T.both twin.old) (T.both twin.new) × SameFaults (D.state device.old) (D.state device.new) }
{
    if let Some(half) = find_missing(alloc, twin, base, false)? {
        return Ok(BackupAnswer::Hindered(Hindrance::Missing(half)));
    }
    attach_to(alloc, device, to)?;
    back_up_over(alloc, twin, device, work)
}

/// Backs up the files of this BASE, of this application, to TO.KDCA, and says what became of it.
pub(crate) fn backup_work<T: Twin, D: Device>(
    alloc: Global,
    twin: &mut T,
    device: &mut D,
    base: &[u8],
    to: &[u8],
    work: &Work,
) -> Status
    ensures { EndsBackupOver (update_errand work.now) base.now to.now (T.both twin.old) (T.both twin.new) (D.state device.old) (D.state device.new) (D.leaves device.new) result.code }
{
    let answer = match answer_for(alloc, twin, device, base, to, work) {
        Ok(answer) => answer,
        Err(DeviceError::Failed) => return Status::DEVICE,
        Err(DeviceError::Memory) => return Status::MEMORY,
    };
    let Ok(line) = answer.line(alloc) else {
        return Status::MEMORY;
    };
    match say_both(twin, line.as_bytes()) {
        Ok(()) => answer.status(),
        Err(DeviceError::Failed) => Status::DEVICE,
        Err(DeviceError::Memory) => Status::MEMORY,
    }
}
