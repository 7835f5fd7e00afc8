//! The files of a BASE are carried to its texts, or it is tried.
ghost use Rattle.std.specs.Prelude.{◌≡◌, ◌⊎◌, ℕ, List, IsTrue, IfOk, IsErrOf, true, false, []};
ghost use Rattle.kdcs_types.specs.declared.act.Row.{Row as RowIs};
ghost use Rattle.kdcfile_double.specs.{MakingLaws.{RestsBoth}, Mended.{BothRest}, Twice.{FrameBoth, NoneRose}};
ghost use Rattle.kdcfile_carry.specs.{Doing.{AreEither, RoseOnOne}, Files.{AreFiles, Files}, Leaving.{StaysWithin}, Promise.{lost_of}, Ways.{IsTaken, files_after}};
ghost use Rattle.kdcfile_carry.specs.declared.losing.Losses.TheVariants as losses;
ghost use Rattle.call_parts.specs.{Asking.{update_errand}, LeavingTwo.{FrameTwin, MayAttachTwo}};
ghost use Rattle.carry_cli.specs.{Carrying.{NoneIsMissing, generation_of}, Doing.{IsNow, hindered_by, hindrance_of, judged_as}, Promise.{EndsOver}, Writing.{CarryWrites}};

use crate::answer::{Answer, Hindrance};
use crate::words::Options;
use call_parts::{Work, find_missing};
use kd_device::{DeviceError, Half, Twin};
use kd_update::{Dropped, UpdateError};
use kdcfile_carry::{Alike, Carried, FilesError, Losses, Would, carry_files, would_carry};
use kdcfile_copies::kdcfile_halves::say_both;
use kdcs_types::Row;
use refusals::Status;
use std::alloc::Global;

// A judgement as a hindrance.
fn judged_as(why: UpdateError) -> Result<Hindrance, DeviceError>
    ensures { result ≡ judged_as why }
{
    match why {
        UpdateError::NotKdcfile => Ok(Hindrance::Judged(UpdateError::NotKdcfile)),
        UpdateError::OtherBlksize(n) => Ok(Hindrance::Judged(UpdateError::OtherBlksize(n))),
        UpdateError::SmallerPool(n) => Ok(Hindrance::Judged(UpdateError::SmallerPool(n))),
        UpdateError::TooManyGssbs(n) => Ok(Hindrance::Judged(UpdateError::TooManyGssbs(n))),
        UpdateError::TooLarge(n) => Ok(Hindrance::Judged(UpdateError::TooLarge(n))),
        UpdateError::Memory => Err(DeviceError::Memory),
    }
}

/// Why files are hindered.
pub(crate) fn hindrance_of(why: FilesError) -> Result<Hindrance, DeviceError>
    ensures { result ≡ hindrance_of why }
{
    match why {
        FilesError::Refused(why) => judged_as(why),
        FilesError::TwoMeanings => Ok(Hindrance::TwoMeanings),
        FilesError::Spent(_) => Ok(Hindrance::Spent),
        FilesError::Failed => Err(DeviceError::Failed),
        FilesError::Memory => Err(DeviceError::Memory),
    }
}

// What it means that files were not carried.
fn hindered_by(why: FilesError) -> Result<Answer, DeviceError>
    ensures { result ≡ hindered_by why }
{
    match hindrance_of(why) {
        Ok(why) => Ok(Answer::Hindered(why)),
        Err(error) => Err(error),
    }
}

// What is told of files that would be carried.
fn would_be(gone: Dropped, rows: Vec<Row>, may_drop: bool) -> Answer
    ensures carries { (may_drop ≡ false → rows.items ≡ []) → result ≡ Answer.WouldCarry gone rows }
    ensures drops { may_drop ≡ false → (rows.items ≡ [] → ⊥) → result ≡ Answer.WouldDrop rows }
{
    if may_drop || rows.is_empty() {
        Answer::WouldCarry(gone, rows)
    } else {
        Answer::WouldDrop(rows)
    }
}

// What would be done with the files, which stay as they are.
fn try_over<T: Twin>(
    alloc: Global,
    twin: &mut T,
    work: &Work,
    options: Options,
) -> Result<Answer, DeviceError>
    requires { options.only_tries ≡ true }
    ensures is_now { IfOk result (λ x. IsTrue (T.both twin.old).told → NoneIsMissing options (T.both twin.old).first.holds (T.both twin.old).second.holds → IsNow (update_errand work.now) options x (T.both twin.old) (T.both twin.new) (T.leaves twin.old) (T.leaves twin.new)) }
    ensures rests { IsTrue (T.both twin.old).told → RestsBoth (T.both twin.old) (T.both twin.new) (T.leaves twin.old) (T.leaves twin.new) }
    ensures failed { IsErrOf result DeviceError.Failed → RoseOnOne (T.both twin.old) (T.both twin.new) }
    ensures frame { FrameBoth (T.both twin.old) (T.both twin.new) }
{
    let generation = &work.application.generation;
    match would_carry(alloc, twin, generation, &work.fingerprint) {
        Ok(Would::UpToDate) => Ok(Answer::WouldKeep),
        Ok(Would::Carries(gone, rows)) => Ok(would_be(gone, rows, options.may_drop)),
        Err(why) => hindered_by(why),
    }
}

fn losses_of(may_drop: bool) -> Losses
    ensures accepted { may_drop ≡ true → result ≡ losses.Accepted }
    ensures refused { may_drop ≡ false → result ≡ losses.Refused }
{
    if may_drop {
        Losses::Accepted
    } else {
        Losses::Refused
    }
}

fn lost_of(alike: Alike) -> Option<Half>
    ensures { result ≡ lost_of alike }
{
    match alike {
        Alike::Already => None,
        Alike::Mended(_) => None,
        Alike::Lost(half) => Some(half),
    }
}

// The files are carried, where no row goes that may not.
fn carry_over<T: Twin>(
    alloc: Global,
    twin: &mut T,
    work: &Work,
    options: Options,
) -> Result<Answer, DeviceError>
    requires { options.only_tries ≡ false }
    ensures is_now { IfOk result (λ x. IsTrue (T.both twin.old).told → NoneIsMissing options (T.both twin.old).first.holds (T.both twin.old).second.holds → IsNow (update_errand work.now) options x (T.both twin.old) (T.both twin.new) (T.leaves twin.old) (T.leaves twin.new)) }
    ensures any_moment { IsTrue (T.both twin.old).told → BothRest (T.both twin.old) (T.leaves twin.old) → (f : Files) → AreFiles f (T.both twin.old).first.holds (T.both twin.old).second.holds → StaysWithin (AreEither f (files_after (generation_of (update_errand work.now)) work.now.fingerprint f)) (T.both twin.old) (T.both twin.new) (T.leaves twin.old) (T.leaves twin.new) }
    ensures still { IsTrue (T.both twin.old).told → ((f : Files) → AreFiles f (T.both twin.old).first.holds (T.both twin.old).second.holds → IsTaken (generation_of (update_errand work.now)) work.now.fingerprint f → ⊥) → RestsBoth (T.both twin.old) (T.both twin.new) (T.leaves twin.old) (T.leaves twin.new) }
    ensures written { IsTrue (T.both twin.old).told → CarryWrites (update_errand work.now) options (T.both twin.old) (T.both twin.new) }
    ensures failed { IsErrOf result DeviceError.Failed → RoseOnOne (T.both twin.old) (T.both twin.new) }
    ensures frame { FrameBoth (T.both twin.old) (T.both twin.new) }
{
    let generation = &work.application.generation;
    let losses = losses_of(options.may_drop);
    match carry_files(alloc, twin, generation, &work.fingerprint, losses) {
        Ok(Carried::UpToDate(alike)) => Ok(Answer::UpToDate(lost_of(alike))),
        Ok(Carried::Stand(gone, lost)) => Ok(Answer::Carried(gone, lost)),
        Ok(Carried::WouldLose(rows)) => Ok(Answer::WouldDrop(rows)),
        Err(why) => hindered_by(why),
    }
}

// The same where none of the files is missing, or a copy is taken alone.
fn answer_over<T: Twin>(
    alloc: Global,
    twin: &mut T,
    work: &Work,
    options: Options,
) -> Result<Answer, DeviceError>
    ensures is_now { IfOk result (λ x. IsTrue (T.both twin.old).told → NoneIsMissing options (T.both twin.old).first.holds (T.both twin.old).second.holds → IsNow (update_errand work.now) options x (T.both twin.old) (T.both twin.new) (T.leaves twin.old) (T.leaves twin.new)) }
    ensures any_moment { IsTrue (T.both twin.old).told → BothRest (T.both twin.old) (T.leaves twin.old) → (f : Files) → AreFiles f (T.both twin.old).first.holds (T.both twin.old).second.holds → StaysWithin (AreEither f (files_after (generation_of (update_errand work.now)) work.now.fingerprint f)) (T.both twin.old) (T.both twin.new) (T.leaves twin.old) (T.leaves twin.new) }
    ensures still { IsTrue (T.both twin.old).told → ((f : Files) → AreFiles f (T.both twin.old).first.holds (T.both twin.old).second.holds → IsTaken (generation_of (update_errand work.now)) work.now.fingerprint f → ⊥) → RestsBoth (T.both twin.old) (T.both twin.new) (T.leaves twin.old) (T.leaves twin.new) }
    ensures tried { IsTrue (T.both twin.old).told → options.only_tries ≡ true → RestsBoth (T.both twin.old) (T.both twin.new) (T.leaves twin.old) (T.leaves twin.new) }
    ensures written { IsTrue (T.both twin.old).told → CarryWrites (update_errand work.now) options (T.both twin.old) (T.both twin.new) }
    ensures failed { IsErrOf result DeviceError.Failed → RoseOnOne (T.both twin.old) (T.both twin.new) }
    ensures frame { FrameBoth (T.both twin.old) (T.both twin.new) }
{
    if options.only_tries {
        try_over(alloc, twin, work, options)
    } else {
        carry_over(alloc, twin, work, options)
    }
}

// What becomes of the files of this BASE.
fn answer_for<T: Twin>(
    alloc: Global,
    twin: &mut T,
    base: &[u8],
    work: &Work,
    options: Options,
) -> Result<Answer, DeviceError>
    ensures is_now { IfOk result (λ x. IsTrue (T.both twin.old).told → IsNow (update_errand work.now) options x (T.both twin.old) (T.both twin.new) (T.leaves twin.old) (T.leaves twin.new)) }
    ensures any_moment { IsTrue (T.both twin.old).told → BothRest (T.both twin.old) (T.leaves twin.old) → (f : Files) → AreFiles f (T.both twin.old).first.holds (T.both twin.old).second.holds → StaysWithin (AreEither f (files_after (generation_of (update_errand work.now)) work.now.fingerprint f)) (T.both twin.old) (T.both twin.new) (T.leaves twin.old) (T.leaves twin.new) }
    ensures still { IsTrue (T.both twin.old).told → ((f : Files) → AreFiles f (T.both twin.old).first.holds (T.both twin.old).second.holds → IsTaken (generation_of (update_errand work.now)) work.now.fingerprint f → ⊥) → RestsBoth (T.both twin.old) (T.both twin.new) (T.leaves twin.old) (T.leaves twin.new) }
    ensures tried { IsTrue (T.both twin.old).told → options.only_tries ≡ true → RestsBoth (T.both twin.old) (T.both twin.new) (T.leaves twin.old) (T.leaves twin.new) }
    ensures written { IsTrue (T.both twin.old).told → CarryWrites (update_errand work.now) options (T.both twin.old) (T.both twin.new) }
    ensures failed { IsErrOf result DeviceError.Failed → RoseOnOne (T.both twin.old) (T.both twin.new) }
    ensures names { IsTrue (T.both twin.old).told → MayAttachTwo base.now (T.both twin.old) (T.both twin.new) }
    ensures sent { IsTrue (T.both twin.old).told → (T.both twin.new).sent ≡ (T.both twin.old).sent }
    ensures frame { FrameTwin (T.both twin.old) (T.both twin.new) }
{
    match find_missing(alloc, twin, base, options.alone)? {
        Some(half) => Ok(Answer::Hindered(Hindrance::Missing(half))),
        None => answer_over(alloc, twin, work, options),
    }
}

/// Carries the files of this BASE to this application, as the options say, and says what became of them.
pub(crate) fn carry_work<T: Twin>(
    alloc: Global,
    twin: &mut T,
    base: &[u8],
    work: &Work,
    options: Options,
) -> Status
    ensures { EndsOver (update_errand work.now) base.now options (T.both twin.old) (T.both twin.new) (T.leaves twin.old) (T.leaves twin.new) result.code }
{
    let answer = match answer_for(alloc, twin, base, work, options) {
        Ok(answer) => answer,
        Err(DeviceError::Failed) => return Status::DEVICE,
        Err(DeviceError::Memory) => return Status::MEMORY,
    };
    let Ok(text) = answer.text(alloc, &work.application.generation) else {
        return Status::MEMORY;
    };
    match say_both(twin, text.as_slice()) {
        Ok(()) => answer.status(),
        Err(DeviceError::Failed) => Status::DEVICE,
        Err(DeviceError::Memory) => Status::MEMORY,
    }
}
