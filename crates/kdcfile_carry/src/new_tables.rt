//! The tables that files are carried to, and the content that keeps them.
ghost use Rattle.std.specs.Prelude.{◌≡◌, ◌≤◌, ℕ, List, Ok, Err, IfOk, OnOk, IsErrOf, IfSome, Some, is_some, true};
ghost use Rattle.application_types.specs.Soundness.{AreLimits};
ghost use Rattle.kd_records.specs.Identity.{IsIdentity};
ghost use Rattle.record_codec.specs.Records.{content_of_tables};
ghost use Rattle.kdcfile_copies.specs.Copies.{with_sequence};
ghost use Rattle.kdcfile_double.specs.Opening.{last_sequence};
ghost use Rattle.kdcfile_store.specs.Paged.{identity_with};
ghost use Rattle.kd_update.specs.Carrying.{carried, dropped};
ghost use Rattle.kd_update.specs.declared.error.UpdateError.{UpdateError as Cause};
ghost use Rattle.kd_update.specs.declared.error.UpdateError.TheVariants as cause;
ghost use Rattle.carry_steps.specs.Deciding.{next_sequence};
ghost use Rattle.kdcfile_carry.specs.{Keeping.{IsKnown, content_by, files_in}, Ways.{judgement, made_with, pool_by, room_by}};

use crate::error::FilesError;
use crate::finding::Kept;
use application_types::generation::Generation;
use carry_steps::next_sequence;
use kd_base::OutOfMemory;
use kd_records::{Content, Patch, PatchItems};
use kd_update::{Dropped, UpdateError, carried, judge};
use kdcfile_copies::sequenced;
use kdcfile_store::StoreLimits;
use kdcs_types::Tables;
use record_codec::records;
use std::alloc::Global;

/// The greatest sequence from which a call goes on.
const LAST_SEQUENCE: u64 = 1_000_000_000_000_000_000;

// PGPOOL of the generation that made the files: copies have a page more.
fn pool_of(kept: &Kept) -> u32
    ensures { result ≡ pool_by kept.now.sequence kept.now.file.store.identity.pages }
{
    let pages = kept.file.store.limits().pgpool;
    match kept.sequence {
        Some(_) => pages.saturating_sub(1),
        None => pages,
    }
}

// Two copies become one file in their own place, whose page pool is no smaller.
fn has_room(generation: &Generation, kept: &Kept) -> Result<(), UpdateError>
    ensures { result ≡ room_by (is_some generation.now.double) kept.now.sequence kept.now.file.store.identity.pages generation.now.limits.pgpool }
{
    let pages = kept.file.store.limits().pgpool;
    if generation.double().is_none() && kept.sequence.is_some() && pages > generation.max().pgpool {
        return Err(UpdateError::SmallerPool(pages));
    }
    Ok(())
}

// Whether files of other texts may be carried, with these tables, which are those carried.
fn judge_files(generation: &Generation, kept: &Kept, new: &Tables) -> Result<(), UpdateError>
    requires known { IsKnown kept.now }
    requires carried { new.now ≡ carried generation.now kept.now.tables }
    ensures { result ≡ judgement generation.now (files_in kept.now) }
{
    let blksize = kept.file.store.limits().blksize;
    match judge(generation, blksize, pool_of(kept), &kept.tables, new) {
        Ok(()) => has_room(generation, kept),
        Err(why) => Err(why),
    }
}

/// The carried tables, where they may be carried, and how many rows of each kind went.
pub(crate) fn new_tables(
    alloc: Global,
    generation: &Generation,
    kept: &Kept,
) -> Result<(Tables, Dropped), FilesError>
    requires known { IsKnown kept.now }
    ensures tables { IfOk result (λ r. r.0 ≡ carried generation.now kept.now.tables) }
    ensures gone { IfOk result (λ r. r.1 ≡ dropped kept.now.tables (carried generation.now kept.now.tables)) }
    ensures judged { OnOk result (judgement generation.now (files_in kept.now) ≡ Ok tt) }
    ensures refused { (why : Cause) → IsErrOf result (FilesError.Refused why) → judgement generation.now (files_in kept.now) ≡ Err why }
    ensures told { (IsErrOf result FilesError.TwoMeanings → ⊥) × (IsErrOf result FilesError.Failed → ⊥) × ((n : ℕ) → IsErrOf result (FilesError.Spent n) → ⊥) }
{
    let (new, gone) = carried(alloc, generation, &kept.tables)?;
    judge_files(generation, kept, &new)?;
    Ok((new, gone))
}

/// The sequence of the copy that is made, if one is.
pub(crate) fn new_sequence(
    generation: &Generation,
    sequence: Option<u64>,
) -> Result<Option<u64>, FilesError>
    ensures sequence { IfOk result (λ s. s ≡ next_sequence (is_some generation.now.double) sequence) }
    ensures small { IfOk result (λ s. IfSome s (λ n. n ≤ last_sequence)) }
    ensures spent { (n : ℕ) → IsErrOf result (FilesError.Spent n) → (is_some generation.now.double ≡ true) × (sequence ≡ Some n) × (last_sequence ≤ n) }
    ensures told { (IsErrOf result FilesError.TwoMeanings → ⊥) × (IsErrOf result FilesError.Failed → ⊥) × ((why : Cause) → IsErrOf result (FilesError.Refused why) → ⊥) }
{
    let double = generation.double().is_some();
    match sequence {
        Some(last) if double && last >= LAST_SEQUENCE => Err(FilesError::Spent(last)),
        before => Ok(next_sequence(double, before)),
    }
}

/// The content of the carried tables, by itself or with a sequence.
pub(crate) fn new_content(
    alloc: Global,
    generation: &Generation,
    kept: &Kept,
    tables: &Tables,
    sequence: Option<u64>,
) -> Result<Content, OutOfMemory>
    requires known { IsKnown kept.now }
    requires tables { tables.now ≡ carried generation.now kept.now.tables }
    requires judged { judgement generation.now (files_in kept.now) ≡ Ok tt }
    ensures { IfOk result (λ x. x ≡ content_by sequence (content_of_tables tables.now)) }
{
    let limits = generation.max();
    let _ = limits; // they have their ranges, so that values are short
    let content = records(alloc, tables)?;
    match sequence {
        None => Ok(content),
        Some(number) => with_sequence(alloc, &content, number),
    }
}

// A content with the record of a sequence.
fn with_sequence(alloc: Global, content: &Content, sequence: u64) -> Result<Content, OutOfMemory>
    ensures { IfOk result (λ x. x ≡ with_sequence sequence content.now) }
{
    let alone = Patch {
        clock: content.clock,
        next_job: content.next_job,
        items: PatchItems::new(alloc),
    };
    content.patched(alloc, &sequenced(alloc, &alone, sequence)?)
}

/// The sizes that the new files are made with, from texts with this fingerprint: copies have a page more.
pub(crate) fn new_limits(generation: &Generation, fingerprint: &[u8; 32]) -> StoreLimits
    ensures made { identity_with result fingerprint.now ≡ made_with generation.now fingerprint.now }
    ensures identity { IsIdentity (identity_with result fingerprint.now) }
    ensures limits { AreLimits generation.now.limits }
{
    let _ = fingerprint; // the sizes are the same for all
    let max = generation.max();
    let more = match generation.double() {
        Some(_) => 1,
        None => 0,
    };
    StoreLimits {
        blksize: max.blksize,
        pgpool: max.pgpool + more,
    }
}
