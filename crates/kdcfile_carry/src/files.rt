//! The two files of an application are carried to a new generation, or it is told what that would do.
ghost use Rattle.std.specs.Prelude.{◌≡◌, ℕ, List, [], IsTrue, IfOk, IfSome, IfNone, IsErrOf};
ghost use Rattle.application_types.specs.Generation.{Generated};
ghost use Rattle.kdcfile_double.specs.{Twice.{FrameBoth, NoneRose}, MakingLaws.{RestsBoth}, Mended.{BothRest}};
ghost use Rattle.kd_update.specs.declared.error.UpdateError.{UpdateError as Cause};
ghost use Rattle.kdcfile_carry.specs.{Doing.{AreEither, IsPlan, RoseOnOne}, Files.{AreFiles, Files, HaveTwoMeanings}, Keeping.{IsIn, IsKnown, files_in}, Leaving.{StaysWithin}, Losing.{MayLose, rows_gone}, Promise.{Fails, IsRefusal, IsSpent, Outcome, WouldBe}, Ways.{AreRefusedAs, AreSpent, IsTaken, IsUpToDate, carried_files, files_after}, Writing.{MakesAlike, MayBeCarried, WritesAtMost}};
ghost use Rattle.kdcfile_carry.specs.declared.losing.Losses.{Losses as Loss};
ghost use Rattle.kdcfile_carry.specs.declared.losing.Losses.TheVariants.{Refused};

use crate::carrying::{carry_over, make_alike};
use crate::error::FilesError;
use crate::finding::{Kept, find};
use crate::losing::{Losses, rows_gone};
use crate::new_tables::new_content;
use crate::outcome::{Carried, Would};
use crate::planning::{Plan, planned, would_be};
use application_types::generation::Generation;
use kd_base::OutOfMemory;
use kd_device::Twin;
use kdcs_types::{Row, Tables};
use std::alloc::Global;

// The rows that would go, where they may not go and there are some.
fn refused_rows(
    alloc: Global,
    old: &Tables,
    new: &Tables,
    losses: Losses,
) -> Result<Option<Vec<Row>>, OutOfMemory>
    ensures some { IfOk result (λ r. IfSome r (λ rows. (losses ≡ Refused) × (rows.items ≡ rows_gone old.now new.now) × (rows.items ≡ [] → ⊥))) }
    ensures none { IfOk result (λ r. IfNone r (losses ≡ Refused → rows_gone old.now new.now ≡ [])) }
{
    match losses {
        Losses::Accepted => Ok(None),
        Losses::Refused => {
            let rows = rows_gone(alloc, old, new)?;
            if rows.is_empty() {
                return Ok(None);
            }
            Ok(Some(rows))
        }
    }
}

// Files are carried as is planned.
fn carry_planned<T: Twin>(
    alloc: Global,
    twin: &mut T,
    generation: &Generation,
    fingerprint: &[u8; 32],
    kept: &mut Kept,
    plan: &Plan,
    losses: Losses,
) -> Result<Carried, FilesError>
    requires known { IsKnown kept.old }
    requires plan { IsPlan generation.now fingerprint.now (files_in kept.old) plan.now }
    requires is_in { IsTrue (T.both twin.old).told → IsIn kept.old (T.both twin.old).first.holds (T.both twin.old).second.holds }
    requires at_rest { IsTrue (T.both twin.old).told → BothRest (T.both twin.old) (T.leaves twin.old) }
    ensures done { IfOk result (λ o. IsTrue (T.both twin.old).told → Outcome generation.now fingerprint.now losses (files_in kept.old) o (T.both twin.old) (T.both twin.new) (T.leaves twin.old) (T.leaves twin.new)) }
    ensures any_moment { IsTrue (T.both twin.old).told → StaysWithin (AreEither (files_in kept.old) (carried_files generation.now fingerprint.now (files_in kept.old))) (T.both twin.old) (T.both twin.new) (T.leaves twin.old) (T.leaves twin.new) }
    ensures written { IsTrue (T.both twin.old).told → MayBeCarried generation.now fingerprint.now (MayLose generation.now losses) (files_in kept.old) (T.both twin.old) (T.both twin.new) }
    ensures told { (IsErrOf result FilesError.TwoMeanings → ⊥) × ((why : Cause) → IsErrOf result (FilesError.Refused why) → ⊥) × ((n : ℕ) → IsErrOf result (FilesError.Spent n) → ⊥) }
    ensures failed { IsErrOf result FilesError.Failed → RoseOnOne (T.both twin.old) (T.both twin.new) }
    ensures fine { IfOk result (λ o. Fails o (T.both twin.old) (T.both twin.new)) }
    ensures frame { FrameBoth (T.both twin.old) (T.both twin.new) }
{
    if let Some(rows) = refused_rows(alloc, &kept.tables, &plan.tables, losses)? {
        return Ok(Carried::WouldLose(rows));
    }
    let content = new_content(alloc, generation, kept, &plan.tables, plan.sequence)?;
    let lost = carry_over(alloc, twin, generation, fingerprint, kept, content)?;
    Ok(Carried::Stand(plan.gone, lost))
}

// Copies of these texts are made alike.
fn keep_files<T: Twin>(alloc: Global, twin: &mut T, kept: &Kept) -> Result<Carried, FilesError>
    requires known { IsKnown kept.now }
    requires is_in { IsTrue (T.both twin.old).told → IsIn kept.now (T.both twin.old).first.holds (T.both twin.old).second.holds }
    requires at_rest { IsTrue (T.both twin.old).told → BothRest (T.both twin.old) (T.leaves twin.old) }
    ensures done { (g : Generated) (fingerprint : List ℕ) (losses : Loss) → IsUpToDate g fingerprint (files_in kept.now) → IfOk result (λ o. IsTrue (T.both twin.old).told → Outcome g fingerprint losses (files_in kept.now) o (T.both twin.old) (T.both twin.new) (T.leaves twin.old) (T.leaves twin.new)) }
    ensures any_moment { IsTrue (T.both twin.old).told → StaysWithin (AreFiles (files_in kept.now)) (T.both twin.old) (T.both twin.new) (T.leaves twin.old) (T.leaves twin.new) }
    ensures written { IsTrue (T.both twin.old).told → MakesAlike (files_in kept.now) (T.both twin.old) (T.both twin.new) }
    ensures told { (IsErrOf result FilesError.TwoMeanings → ⊥) × ((why : Cause) → IsErrOf result (FilesError.Refused why) → ⊥) × ((n : ℕ) → IsErrOf result (FilesError.Spent n) → ⊥) }
    ensures failed { IsErrOf result FilesError.Failed → RoseOnOne (T.both twin.old) (T.both twin.new) }
    ensures fine { IfOk result (λ o. Fails o (T.both twin.old) (T.both twin.new)) }
    ensures frame { FrameBoth (T.both twin.old) (T.both twin.new) }
{
    let alike = make_alike(alloc, twin, kept)?;
    Ok(Carried::UpToDate(alike))
}

// Files that were found are kept where they are as the texts ask, and else carried.
fn carry_kept<T: Twin>(
    alloc: Global,
    twin: &mut T,
    generation: &Generation,
    fingerprint: &[u8; 32],
    kept: &mut Kept,
    losses: Losses,
) -> Result<Carried, FilesError>
    requires known { IsKnown kept.old }
    requires is_in { IsTrue (T.both twin.old).told → IsIn kept.old (T.both twin.old).first.holds (T.both twin.old).second.holds }
    requires at_rest { IsTrue (T.both twin.old).told → BothRest (T.both twin.old) (T.leaves twin.old) }
    ensures done { IfOk result (λ o. IsTrue (T.both twin.old).told → Outcome generation.now fingerprint.now losses (files_in kept.old) o (T.both twin.old) (T.both twin.new) (T.leaves twin.old) (T.leaves twin.new)) }
    ensures any_moment { IsTrue (T.both twin.old).told → StaysWithin (AreEither (files_in kept.old) (files_after generation.now fingerprint.now (files_in kept.old))) (T.both twin.old) (T.both twin.new) (T.leaves twin.old) (T.leaves twin.new) }
    ensures written { IsTrue (T.both twin.old).told → WritesAtMost generation.now fingerprint.now (MayLose generation.now losses) (T.both twin.old) (T.both twin.new) }
    ensures refused { (why : Cause) → IsErrOf result (FilesError.Refused why) → IsRefusal generation.now fingerprint.now (files_in kept.old) why }
    ensures spent { (n : ℕ) → IsErrOf result (FilesError.Spent n) → IsSpent generation.now fingerprint.now (files_in kept.old) n }
    ensures two { IsErrOf result FilesError.TwoMeanings → ⊥ }
    ensures still { IsTrue (T.both twin.old).told → (IsTaken generation.now fingerprint.now (files_in kept.old) → ⊥) → RestsBoth (T.both twin.old) (T.both twin.new) (T.leaves twin.old) (T.leaves twin.new) }
    ensures failed { IsErrOf result FilesError.Failed → RoseOnOne (T.both twin.old) (T.both twin.new) }
    ensures fine { IfOk result (λ o. Fails o (T.both twin.old) (T.both twin.new)) }
    ensures frame { FrameBoth (T.both twin.old) (T.both twin.new) }
{
    match planned(alloc, generation, fingerprint, kept)? {
        Some(plan) => carry_planned(alloc, twin, generation, fingerprint, kept, &plan, losses),
        None => keep_files(alloc, twin, kept),
    }
}

/// Carries the files of an application to this generation and the texts with this fingerprint, which ask for one file or for
/// two copies: from one file, or from two copies. Files of these texts that are one file where two copies are asked for, or
/// the reverse, are carried too; others of these texts, whose tables suit, stay, and copies are made alike. Nothing is sent.
///
/// The second file is not written where there was one file and one is asked for. Where two copies become one file, the
/// second file is shut by its first byte before the first one is changed; if a call on it fails, `Failed` comes and the old
/// copies stand. The file stays in its place, so PGPOOL may not shrink, and copies have a page more: PGPOOL has to be larger
/// by one then, else `SmallerPool` with the pages of a copy comes.
pub fn carry_files<T: Twin>(
    alloc: Global,
    twin: &mut T,
    generation: &Generation,
    fingerprint: &[u8; 32],
    losses: Losses,
) -> Result<Carried, FilesError>
    // Of files that are taken each half stands for the carried tables afterwards, but for one on which a call failed; or
    // the rows that would go are answered.
    ensures done { IfOk result (λ o. IsTrue (T.both twin.old).told → (f : Files) × AreFiles f (T.both twin.old).first.holds (T.both twin.old).second.holds × Outcome generation.now fingerprint.now losses f o (T.both twin.old) (T.both twin.new) (T.leaves twin.old) (T.leaves twin.new)) }

    // A stop at any moment of the call leaves the old files, or those of the carried tables, and nothing more was sent.
    ensures any_moment { IsTrue (T.both twin.old).told → BothRest (T.both twin.old) (T.leaves twin.old) → (f : Files) → AreFiles f (T.both twin.old).first.holds (T.both twin.old).second.holds → StaysWithin (AreEither f (files_after generation.now fingerprint.now f)) (T.both twin.old) (T.both twin.new) (T.leaves twin.old) (T.leaves twin.new) }

    // Whatever comes, no more is written than one commit, and what makes a half a copy of the other one, or shuts it.
    ensures written { IsTrue (T.both twin.old).told → WritesAtMost generation.now fingerprint.now (MayLose generation.now losses) (T.both twin.old) (T.both twin.new) }

    ensures refused { (why : Cause) → IsErrOf result (FilesError.Refused why) → IsTrue (T.both twin.old).told → AreRefusedAs generation.now fingerprint.now (T.both twin.old).first.holds (T.both twin.old).second.holds why }
    ensures two { IsErrOf result FilesError.TwoMeanings → IsTrue (T.both twin.old).told → HaveTwoMeanings (T.both twin.old).first.holds (T.both twin.old).second.holds }
    ensures spent { (n : ℕ) → IsErrOf result (FilesError.Spent n) → IsTrue (T.both twin.old).told → AreSpent generation.now fingerprint.now (T.both twin.old).first.holds (T.both twin.old).second.holds n }

    // Files that are refused stay as they are.
    ensures still { IsTrue (T.both twin.old).told → ((f : Files) → AreFiles f (T.both twin.old).first.holds (T.both twin.old).second.holds → IsTaken generation.now fingerprint.now f → ⊥) → RestsBoth (T.both twin.old) (T.both twin.new) (T.leaves twin.old) (T.leaves twin.new) }

    ensures failed { IsErrOf result FilesError.Failed → RoseOnOne (T.both twin.old) (T.both twin.new) }
    ensures fine { IfOk result (λ o. Fails o (T.both twin.old) (T.both twin.new)) }
    ensures frame { FrameBoth (T.both twin.old) (T.both twin.new) }
{
    let mut kept = find(alloc, twin)?;
    carry_kept(alloc, twin, generation, fingerprint, &mut kept, losses)
}

/// Tells what `carry_files` would do with the files, and which rows would go. Nothing is written.
pub fn would_carry<T: Twin>(
    alloc: Global,
    twin: &mut T,
    generation: &Generation,
    fingerprint: &[u8; 32],
) -> Result<Would, FilesError>
    ensures done { IfOk result (λ o. IsTrue (T.both twin.old).told → (f : Files) × AreFiles f (T.both twin.old).first.holds (T.both twin.old).second.holds × WouldBe generation.now fingerprint.now f o) }
    ensures refused { (why : Cause) → IsErrOf result (FilesError.Refused why) → IsTrue (T.both twin.old).told → AreRefusedAs generation.now fingerprint.now (T.both twin.old).first.holds (T.both twin.old).second.holds why }
    ensures two { IsErrOf result FilesError.TwoMeanings → IsTrue (T.both twin.old).told → HaveTwoMeanings (T.both twin.old).first.holds (T.both twin.old).second.holds }
    ensures spent { (n : ℕ) → IsErrOf result (FilesError.Spent n) → IsTrue (T.both twin.old).told → AreSpent generation.now fingerprint.now (T.both twin.old).first.holds (T.both twin.old).second.holds n }
    ensures rests { IsTrue (T.both twin.old).told → RestsBoth (T.both twin.old) (T.both twin.new) (T.leaves twin.old) (T.leaves twin.new) }
    ensures failed { IsErrOf result FilesError.Failed → RoseOnOne (T.both twin.old) (T.both twin.new) }
    ensures fine { (IsErrOf result FilesError.Failed → ⊥) → NoneRose (T.both twin.old) (T.both twin.new) }
    ensures frame { FrameBoth (T.both twin.old) (T.both twin.new) }
{
    let kept = find(alloc, twin)?;
    would_be(alloc, generation, fingerprint, &kept)
}
