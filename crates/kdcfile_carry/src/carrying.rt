//! Two files are carried: the first one is changed at once, by one commit. A second copy is shut before, where the texts
//! ask for one file, and else the second file is made alike afterwards.
ghost use Rattle.std.specs.Prelude.{◌≡◌, ◌≤◌, ◌+◌, ℕ, IsTrue, IfOk, OnOk, IsErrOf, Some, is_some, false, true};
ghost use Rattle.kd_device.specs.declared.half.Half.TheVariants.{First, Second};
ghost use Rattle.kdcfile_double.specs.{Twice.{FrameBoth, NoneRose, RoseAt}, Mended.{BothRest}};
ghost use Rattle.kd_update.specs.Carrying.{carried};
ghost use Rattle.kd_update.specs.declared.error.UpdateError.{UpdateError as Cause};
ghost use Rattle.record_codec.specs.Records.{content_of_tables};
ghost use Rattle.carry_steps.specs.Deciding.{next_sequence, shuts_second};
ghost use Rattle.kdcfile_carry.specs.{Doing.{AreEither, FailsAlone, IsOnFirst, IsReady, RoseOnOne}, Files.{AreFiles}, Keeping.{IsIn, IsKnown, IsSource, content_by, files_in}, Leaving.{EachStands, LeavesFiles, StaysWithin}, Promise.{WereAlike, lost_of}, Ways.{MayCarry, carried_files, made_with}, Writing.{Changes, MakesAlike, MendsFirst, Prepares, Shuts, WritesCarried, commit_most}};

use crate::beside::{other, write_anew};
use crate::error::FilesError;
use crate::finding::Kept;
use crate::first_file::replace_first;
use crate::gate::shut_second;
use crate::new_tables::new_limits;
use crate::outcome::Alike;
use application_types::generation::Generation;
use carry_steps::shuts_second;
use kd_device::{Half, Twin};
use kd_records::Content;
use std::alloc::Global;

// The first file is written anew from the second one, which has the copy that counts.
fn first_anew<T: Twin>(alloc: Global, twin: &mut T, kept: &Kept) -> Result<(), FilesError>
    requires second { kept.now.home ≡ Second }
    requires known { IsKnown kept.now }
    requires is_in { IsTrue (T.both twin.old).told → IsIn kept.now (T.both twin.old).first.holds (T.both twin.old).second.holds }
    requires at_rest { IsTrue (T.both twin.old).told → BothRest (T.both twin.old) (T.leaves twin.old) }
    ensures any_moment { IsTrue (T.both twin.old).told → StaysWithin (AreFiles (files_in kept.now)) (T.both twin.old) (T.both twin.new) (T.leaves twin.old) (T.leaves twin.new) }
    ensures on_first { OnOk result (IsTrue (T.both twin.old).told → IsOnFirst kept.now (T.both twin.new).first.holds (T.both twin.new).second.holds) }
    ensures at_rest { OnOk result (IsTrue (T.both twin.old).told → BothRest (T.both twin.new) (T.leaves twin.new)) }
    ensures written { IsTrue (T.both twin.old).told → MendsFirst (files_in kept.now) (T.both twin.old) (T.both twin.new) }
    ensures told { (IsErrOf result FilesError.TwoMeanings → ⊥) × ((why : Cause) → IsErrOf result (FilesError.Refused why) → ⊥) × ((n : ℕ) → IsErrOf result (FilesError.Spent n) → ⊥) }
    ensures failed { IsErrOf result FilesError.Failed → RoseOnOne (T.both twin.old) (T.both twin.new) }
    ensures fine { OnOk result (NoneRose (T.both twin.old) (T.both twin.new)) }
    ensures frame { FrameBoth (T.both twin.old) (T.both twin.new) }
{
    match write_anew(alloc, twin, Half::Second) {
        Ok(None) => Ok(()),
        Ok(Some(_)) => Err(FilesError::Failed),
        Err(why) => Err(why),
    }
}

// The first file has the copy that counts: where the second one has it, the first one is written anew.
fn first_counts<T: Twin>(alloc: Global, twin: &mut T, kept: &Kept) -> Result<(), FilesError>
    requires known { IsKnown kept.now }
    requires is_in { IsTrue (T.both twin.old).told → IsIn kept.now (T.both twin.old).first.holds (T.both twin.old).second.holds }
    requires at_rest { IsTrue (T.both twin.old).told → BothRest (T.both twin.old) (T.leaves twin.old) }
    ensures any_moment { IsTrue (T.both twin.old).told → StaysWithin (AreFiles (files_in kept.now)) (T.both twin.old) (T.both twin.new) (T.leaves twin.old) (T.leaves twin.new) }
    ensures on_first { OnOk result (IsTrue (T.both twin.old).told → IsOnFirst kept.now (T.both twin.new).first.holds (T.both twin.new).second.holds) }
    ensures at_rest { OnOk result (IsTrue (T.both twin.old).told → BothRest (T.both twin.new) (T.leaves twin.new)) }
    ensures written { IsTrue (T.both twin.old).told → MendsFirst (files_in kept.now) (T.both twin.old) (T.both twin.new) }
    ensures told { (IsErrOf result FilesError.TwoMeanings → ⊥) × ((why : Cause) → IsErrOf result (FilesError.Refused why) → ⊥) × ((n : ℕ) → IsErrOf result (FilesError.Spent n) → ⊥) }
    ensures failed { IsErrOf result FilesError.Failed → RoseOnOne (T.both twin.old) (T.both twin.new) }
    ensures fine { OnOk result (NoneRose (T.both twin.old) (T.both twin.new)) }
    ensures frame { FrameBoth (T.both twin.old) (T.both twin.new) }
{
    match kept.home {
        Half::First => Ok(()),
        Half::Second => first_anew(alloc, twin, kept),
    }
}

// Whether the second file is a copy, and one file is asked for.
fn shuts_copy(generation: &Generation, kept: &Kept) -> bool
    ensures { result ≡ shuts_second (is_some generation.now.double) kept.now.sequence }
{
    shuts_second(generation.double().is_some(), kept.sequence)
}

// The second file is such that the first one, which has what was found, may be changed beside it: a copy is shut where the
// texts ask for one file, while the first file is the old copy still, and counts alone.
fn make_ready<T: Twin>(twin: &mut T, generation: &Generation, kept: &Kept) -> Result<(), FilesError>
    requires on_first { IsTrue (T.both twin.old).told → IsOnFirst kept.now (T.both twin.old).first.holds (T.both twin.old).second.holds }
    requires at_rest { IsTrue (T.both twin.old).told → BothRest (T.both twin.old) (T.leaves twin.old) }
    ensures any_moment { IsTrue (T.both twin.old).told → StaysWithin (AreFiles (files_in kept.now)) (T.both twin.old) (T.both twin.new) (T.leaves twin.old) (T.leaves twin.new) }
    ensures ready { OnOk result (IsTrue (T.both twin.old).told → IsReady kept.now (is_some generation.now.double) (T.both twin.new).first.holds (T.both twin.new).second.holds) }
    ensures at_rest { OnOk result (IsTrue (T.both twin.old).told → BothRest (T.both twin.new) (T.leaves twin.new)) }
    ensures written { IsTrue (T.both twin.old).told → Shuts (is_some generation.now.double) (files_in kept.now) (T.both twin.old) (T.both twin.new) }
    ensures told { (IsErrOf result FilesError.TwoMeanings → ⊥) × ((why : Cause) → IsErrOf result (FilesError.Refused why) → ⊥) × ((n : ℕ) → IsErrOf result (FilesError.Spent n) → ⊥) }
    ensures failed { IsErrOf result FilesError.Failed → RoseAt Second (T.both twin.old) (T.both twin.new) }
    ensures fine { OnOk result (NoneRose (T.both twin.old) (T.both twin.new)) }
    ensures frame { FrameBoth (T.both twin.old) (T.both twin.new) }
{
    if !shuts_copy(generation, kept) {
        return Ok(());
    }
    shut_second(twin)?;
    Ok(())
}

// The first file has the copy that counts, and may be changed.
fn prepare<T: Twin>(
    alloc: Global,
    twin: &mut T,
    generation: &Generation,
    kept: &Kept,
) -> Result<(), FilesError>
    requires known { IsKnown kept.now }
    requires is_in { IsTrue (T.both twin.old).told → IsIn kept.now (T.both twin.old).first.holds (T.both twin.old).second.holds }
    requires at_rest { IsTrue (T.both twin.old).told → BothRest (T.both twin.old) (T.leaves twin.old) }
    ensures any_moment { IsTrue (T.both twin.old).told → StaysWithin (AreFiles (files_in kept.now)) (T.both twin.old) (T.both twin.new) (T.leaves twin.old) (T.leaves twin.new) }
    ensures ready { OnOk result (IsTrue (T.both twin.old).told → IsReady kept.now (is_some generation.now.double) (T.both twin.new).first.holds (T.both twin.new).second.holds) }
    ensures at_rest { OnOk result (IsTrue (T.both twin.old).told → BothRest (T.both twin.new) (T.leaves twin.new)) }
    ensures written { IsTrue (T.both twin.old).told → Prepares (is_some generation.now.double) (files_in kept.now) (T.both twin.old) (T.both twin.new) }
    ensures told { (IsErrOf result FilesError.TwoMeanings → ⊥) × ((why : Cause) → IsErrOf result (FilesError.Refused why) → ⊥) × ((n : ℕ) → IsErrOf result (FilesError.Spent n) → ⊥) }
    ensures failed { IsErrOf result FilesError.Failed → RoseOnOne (T.both twin.old) (T.both twin.new) }
    ensures fine { OnOk result (NoneRose (T.both twin.old) (T.both twin.new)) }
    ensures frame { FrameBoth (T.both twin.old) (T.both twin.new) }
{
    first_counts(alloc, twin, kept)?;
    make_ready(twin, generation, kept)
}

// The first file, which is ready, is changed by one commit.
fn change<T: Twin>(
    alloc: Global,
    twin: &mut T,
    generation: &Generation,
    fingerprint: &[u8; 32],
    kept: &mut Kept,
    content: Content,
) -> Result<(), FilesError>
    requires known { IsKnown kept.old }
    requires may { MayCarry generation.now fingerprint.now (files_in kept.old) }
    requires content { content ≡ content_by (next_sequence (is_some generation.now.double) kept.old.sequence) (content_of_tables (carried generation.now kept.old.tables)) }
    requires ready { IsTrue (T.both twin.old).told → IsReady kept.old (is_some generation.now.double) (T.both twin.old).first.holds (T.both twin.old).second.holds }
    requires at_rest { IsTrue (T.both twin.old).told → BothRest (T.both twin.old) (T.leaves twin.old) }
    ensures any_moment { IsTrue (T.both twin.old).told → StaysWithin (AreEither (files_in kept.old) (carried_files generation.now fingerprint.now (files_in kept.old))) (T.both twin.old) (T.both twin.new) (T.leaves twin.old) (T.leaves twin.new) }
    ensures files { OnOk result (IsTrue (T.both twin.old).told → AreFiles (carried_files generation.now fingerprint.now (files_in kept.old)) (T.both twin.new).first.holds (T.both twin.new).second.holds) }
    ensures source { OnOk result (IsTrue (T.both twin.old).told → (n : ℕ) → next_sequence (is_some generation.now.double) kept.old.sequence ≡ Some n → IsSource First (made_with generation.now fingerprint.now) n (carried generation.now kept.old.tables) (T.both twin.new).first.holds (T.both twin.new).second.holds) }
    ensures at_rest { OnOk result (IsTrue (T.both twin.old).told → BothRest (T.both twin.new) (T.leaves twin.new)) }
    ensures put_most { IsTrue (T.both twin.old).told → (T.both twin.new).first.put ≤ (T.both twin.old).first.put + commit_most generation.now fingerprint.now (files_in kept.old) }
    ensures other_put { IsTrue (T.both twin.old).told → (T.both twin.new).second.put ≡ (T.both twin.old).second.put }
    ensures told { (IsErrOf result FilesError.TwoMeanings → ⊥) × ((why : Cause) → IsErrOf result (FilesError.Refused why) → ⊥) × ((n : ℕ) → IsErrOf result (FilesError.Spent n) → ⊥) }
    ensures failed { IsErrOf result FilesError.Failed → RoseAt First (T.both twin.old) (T.both twin.new) }
    ensures fine { OnOk result (NoneRose (T.both twin.old) (T.both twin.new)) }
    ensures frame { FrameBoth (T.both twin.old) (T.both twin.new) }
{
    let limits = new_limits(generation, fingerprint);
    replace_first(
        alloc,
        twin,
        &mut kept.file.store,
        &limits,
        fingerprint,
        content,
    )?;
    Ok(())
}

// The first file is changed, once it may be.
fn change_first<T: Twin>(
    alloc: Global,
    twin: &mut T,
    generation: &Generation,
    fingerprint: &[u8; 32],
    kept: &mut Kept,
    content: Content,
) -> Result<(), FilesError>
    requires known { IsKnown kept.old }
    requires may { MayCarry generation.now fingerprint.now (files_in kept.old) }
    requires content { content ≡ content_by (next_sequence (is_some generation.now.double) kept.old.sequence) (content_of_tables (carried generation.now kept.old.tables)) }
    requires is_in { IsTrue (T.both twin.old).told → IsIn kept.old (T.both twin.old).first.holds (T.both twin.old).second.holds }
    requires at_rest { IsTrue (T.both twin.old).told → BothRest (T.both twin.old) (T.leaves twin.old) }
    ensures any_moment { IsTrue (T.both twin.old).told → StaysWithin (AreEither (files_in kept.old) (carried_files generation.now fingerprint.now (files_in kept.old))) (T.both twin.old) (T.both twin.new) (T.leaves twin.old) (T.leaves twin.new) }
    ensures files { OnOk result (IsTrue (T.both twin.old).told → AreFiles (carried_files generation.now fingerprint.now (files_in kept.old)) (T.both twin.new).first.holds (T.both twin.new).second.holds) }
    ensures source { OnOk result (IsTrue (T.both twin.old).told → (n : ℕ) → next_sequence (is_some generation.now.double) kept.old.sequence ≡ Some n → IsSource First (made_with generation.now fingerprint.now) n (carried generation.now kept.old.tables) (T.both twin.new).first.holds (T.both twin.new).second.holds) }
    ensures at_rest { OnOk result (IsTrue (T.both twin.old).told → BothRest (T.both twin.new) (T.leaves twin.new)) }
    ensures written { IsTrue (T.both twin.old).told → Changes generation.now fingerprint.now (files_in kept.old) (T.both twin.old) (T.both twin.new) }
    ensures told { (IsErrOf result FilesError.TwoMeanings → ⊥) × ((why : Cause) → IsErrOf result (FilesError.Refused why) → ⊥) × ((n : ℕ) → IsErrOf result (FilesError.Spent n) → ⊥) }
    ensures failed { IsErrOf result FilesError.Failed → RoseOnOne (T.both twin.old) (T.both twin.new) }
    ensures fine { OnOk result (NoneRose (T.both twin.old) (T.both twin.new)) }
    ensures frame { FrameBoth (T.both twin.old) (T.both twin.new) }
{
    prepare(alloc, twin, generation, kept)?;
    change(alloc, twin, generation, fingerprint, kept, content)
}

/// Carries the files to this content, as the texts ask, and answers which half is lost. At every stop the files are the old
/// ones or the new ones.
pub(crate) fn carry_over<T: Twin>(
    alloc: Global,
    twin: &mut T,
    generation: &Generation,
    fingerprint: &[u8; 32],
    kept: &mut Kept,
    content: Content,
) -> Result<Option<Half>, FilesError>
    requires known { IsKnown kept.old }
    requires may { MayCarry generation.now fingerprint.now (files_in kept.old) }
    requires content { content ≡ content_by (next_sequence (is_some generation.now.double) kept.old.sequence) (content_of_tables (carried generation.now kept.old.tables)) }
    requires is_in { IsTrue (T.both twin.old).told → IsIn kept.old (T.both twin.old).first.holds (T.both twin.old).second.holds }
    requires at_rest { IsTrue (T.both twin.old).told → BothRest (T.both twin.old) (T.leaves twin.old) }
    ensures any_moment { IsTrue (T.both twin.old).told → StaysWithin (AreEither (files_in kept.old) (carried_files generation.now fingerprint.now (files_in kept.old))) (T.both twin.old) (T.both twin.new) (T.leaves twin.old) (T.leaves twin.new) }
    ensures now { OnOk result (IsTrue (T.both twin.old).told → LeavesFiles (carried_files generation.now fingerprint.now (files_in kept.old)) (T.both twin.new) (T.leaves twin.new)) }
    ensures halves { IfOk result (λ lost. IsTrue (T.both twin.old).told → EachStands (made_with generation.now fingerprint.now) (carried generation.now kept.old.tables) (next_sequence (is_some generation.now.double) kept.old.sequence) lost (T.both twin.new)) }
    ensures written { IsTrue (T.both twin.old).told → WritesCarried generation.now fingerprint.now (files_in kept.old) (T.both twin.old) (T.both twin.new) }
    ensures told { (IsErrOf result FilesError.TwoMeanings → ⊥) × ((why : Cause) → IsErrOf result (FilesError.Refused why) → ⊥) × ((n : ℕ) → IsErrOf result (FilesError.Spent n) → ⊥) }
    ensures failed { IsErrOf result FilesError.Failed → RoseOnOne (T.both twin.old) (T.both twin.new) }
    ensures fine { IfOk result (λ lost. FailsAlone lost (T.both twin.old) (T.both twin.new)) }
    ensures frame { FrameBoth (T.both twin.old) (T.both twin.new) }
{
    change_first(alloc, twin, generation, fingerprint, kept, content)?;
    match generation.double() {
        Some(_) => write_anew(alloc, twin, Half::First),
        None => Ok(None),
    }
}

/// Makes the copies alike, where the files are two, and answers how.
pub(crate) fn make_alike<T: Twin>(
    alloc: Global,
    twin: &mut T,
    kept: &Kept,
) -> Result<Alike, FilesError>
    requires known { IsKnown kept.now }
    requires is_in { IsTrue (T.both twin.old).told → IsIn kept.now (T.both twin.old).first.holds (T.both twin.old).second.holds }
    requires at_rest { IsTrue (T.both twin.old).told → BothRest (T.both twin.old) (T.leaves twin.old) }
    ensures any_moment { IsTrue (T.both twin.old).told → StaysWithin (AreFiles (files_in kept.now)) (T.both twin.old) (T.both twin.new) (T.leaves twin.old) (T.leaves twin.new) }
    ensures halves { IfOk result (λ alike. IsTrue (T.both twin.old).told → EachStands kept.now.file.store.identity kept.now.tables kept.now.sequence (lost_of alike) (T.both twin.new)) }
    ensures were { IfOk result (λ alike. IsTrue (T.both twin.old).told → WereAlike (files_in kept.now) alike (T.both twin.old) (T.both twin.new) (T.leaves twin.old) (T.leaves twin.new)) }
    ensures written { IsTrue (T.both twin.old).told → MakesAlike (files_in kept.now) (T.both twin.old) (T.both twin.new) }
    ensures told { (IsErrOf result FilesError.TwoMeanings → ⊥) × ((why : Cause) → IsErrOf result (FilesError.Refused why) → ⊥) × ((n : ℕ) → IsErrOf result (FilesError.Spent n) → ⊥) }
    ensures failed { IsErrOf result FilesError.Failed → RoseOnOne (T.both twin.old) (T.both twin.new) }
    ensures fine { IfOk result (λ alike. FailsAlone (lost_of alike) (T.both twin.old) (T.both twin.new)) }
    ensures frame { FrameBoth (T.both twin.old) (T.both twin.new) }
{
    if kept.alike {
        return Ok(Alike::Already);
    }
    match write_anew(alloc, twin, kept.home) {
        Ok(None) => Ok(Alike::Mended(other(kept.home))),
        Ok(Some(half)) => Ok(Alike::Lost(half)),
        Err(why) => Err(why),
    }
}
