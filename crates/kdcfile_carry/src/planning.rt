//! What is to become of files that were found, before anything is written.
ghost use Rattle.std.specs.Prelude.{◌≡◌, ◌≤◌, ◌↔◌, ℕ, List, IsTrue, IfOk, IfSome, IfNone, IsErrOf, Ok, Err, Some, is_some, true};
ghost use Rattle.kd_update.specs.declared.error.UpdateError.{UpdateError as Cause};
ghost use Rattle.kdcfile_double.specs.Opening.{last_sequence};
ghost use Rattle.kdcfile_carry.specs.{Doing.{IsPlan}, Keeping.{IsKnown, files_in}, Promise.{IsRefusal, IsSpent, WouldBe}, Ways.{AreOwn, IsUpToDate, judgement}};

use crate::error::FilesError;
use crate::finding::Kept;
use crate::losing::rows_gone;
use crate::new_tables::{new_limits, new_sequence, new_tables};
use crate::outcome::Would;
use application_types::generation::Generation;
use carry_steps::is_asked;
use kd_update::{Dropped, UpdateError};
use kdcs_types::Tables;
use std::alloc::Global;
use table_fit::suits;

/// What is to become of files: the carried tables, how many rows of each kind go, and the sequence of the copy that is
/// made, if one is.
#[derive(Drop)]
pub(crate) struct Plan {
    pub tables: Tables,
    pub gone: Dropped,
    pub sequence: Option<u64>,
}

// The files are of these texts, and two copies or one file as these ask.
fn are_own(generation: &Generation, fingerprint: &[u8; 32], kept: &Kept) -> bool
    ensures { IsTrue result ↔ AreOwn generation.now fingerprint.now (files_in kept.now) }
{
    *kept.file.store.fingerprint() == *fingerprint
        && is_asked(generation.double().is_some(), kept.sequence.is_some())
}

// Such files are made as the texts ask, and their tables suit.
fn are_as_asked(generation: &Generation, fingerprint: &[u8; 32], kept: &Kept) -> bool
    requires own { AreOwn generation.now fingerprint.now (files_in kept.now) }
    ensures { IsTrue result ↔ IsUpToDate generation.now fingerprint.now (files_in kept.now) }
{
    let own = new_limits(generation, fingerprint);
    let limits = kept.file.store.limits();
    limits.pgpool == own.pgpool
        && suits(
            generation,
            &kept.tables,
            limits.blksize,
            generation.max().pgpool,
        )
}

// How files that may be carried are.
fn plan_to_carry(alloc: Global, generation: &Generation, kept: &Kept) -> Result<Plan, FilesError>
    requires known { IsKnown kept.now }
    ensures plan { (fingerprint : List ℕ) → (AreOwn generation.now fingerprint (files_in kept.now) → ⊥) → IfOk result (λ p. IsPlan generation.now fingerprint (files_in kept.now) p) }
    ensures refused { (why : Cause) → IsErrOf result (FilesError.Refused why) → judgement generation.now (files_in kept.now) ≡ Err why }
    ensures spent { (n : ℕ) → IsErrOf result (FilesError.Spent n) → (judgement generation.now (files_in kept.now) ≡ Ok tt) × (is_some generation.now.double ≡ true) × (kept.now.sequence ≡ Some n) × (last_sequence ≤ n) }
    ensures told { (IsErrOf result FilesError.TwoMeanings → ⊥) × (IsErrOf result FilesError.Failed → ⊥) }
{
    let (tables, gone) = new_tables(alloc, generation, kept)?;
    let sequence = new_sequence(generation, kept.sequence)?;
    Ok(Plan {
        tables,
        gone,
        sequence,
    })
}

/// What is to become of the files that were found: nothing, where they are as the texts ask.
pub(crate) fn planned(
    alloc: Global,
    generation: &Generation,
    fingerprint: &[u8; 32],
    kept: &Kept,
) -> Result<Option<Plan>, FilesError>
    requires known { IsKnown kept.now }
    ensures none { IfOk result (λ r. IfNone r (IsUpToDate generation.now fingerprint.now (files_in kept.now))) }
    ensures plan { IfOk result (λ r. IfSome r (λ p. IsPlan generation.now fingerprint.now (files_in kept.now) p)) }
    ensures refused { (why : Cause) → IsErrOf result (FilesError.Refused why) → IsRefusal generation.now fingerprint.now (files_in kept.now) why }
    ensures spent { (n : ℕ) → IsErrOf result (FilesError.Spent n) → IsSpent generation.now fingerprint.now (files_in kept.now) n }
    ensures told { (IsErrOf result FilesError.TwoMeanings → ⊥) × (IsErrOf result FilesError.Failed → ⊥) }
{
    if !are_own(generation, fingerprint, kept) {
        let plan = plan_to_carry(alloc, generation, kept)?;
        return Ok(Some(plan));
    }
    if !are_as_asked(generation, fingerprint, kept) {
        return Err(FilesError::Refused(UpdateError::NotKdcfile));
    }
    Ok(None)
}

/// What a call would do with the files that were found.
pub(crate) fn would_be(
    alloc: Global,
    generation: &Generation,
    fingerprint: &[u8; 32],
    kept: &Kept,
) -> Result<Would, FilesError>
    requires known { IsKnown kept.now }
    ensures done { IfOk result (λ o. WouldBe generation.now fingerprint.now (files_in kept.now) o) }
    ensures refused { (why : Cause) → IsErrOf result (FilesError.Refused why) → IsRefusal generation.now fingerprint.now (files_in kept.now) why }
    ensures spent { (n : ℕ) → IsErrOf result (FilesError.Spent n) → IsSpent generation.now fingerprint.now (files_in kept.now) n }
    ensures told { (IsErrOf result FilesError.TwoMeanings → ⊥) × (IsErrOf result FilesError.Failed → ⊥) }
{
    let Some(plan) = planned(alloc, generation, fingerprint, kept)? else {
        return Ok(Would::UpToDate);
    };
    let rows = rows_gone(alloc, &kept.tables, &plan.tables)?;
    Ok(Would::Carries(plan.gone, rows))
}
