//! The file beside the copy that counts is written anew from it.
ghost use Rattle.std.specs.Prelude.{◌≡◌, ◌≤◌, ◌+◌, ℕ, IsTrue, IfOk, IsErrOf, Some, None, get_or};
ghost use Rattle.kd_device.specs.{Twin.{disk_of, other}, declared.half.Half.{Half as Side}};
ghost use Rattle.kd_records.specs.Identity.{Identity};
ghost use Rattle.kdcs_types.specs.Tables.{TableRows};
ghost use Rattle.kdcfile_copies.specs.Mending.{BeginsWith, mending_most};
ghost use Rattle.kdcfile_double.specs.{Twice.{FrameBoth, RoseAt, SameFaultsAt}, Mended.{BothRest}};
ghost use Rattle.kd_update.specs.declared.error.UpdateError.{UpdateError as Cause};
ghost use Rattle.kdcfile_carry.specs.{Keeping.{IsSource}, Leaving.{EachStands, StaysWithin}};

use crate::error::FilesError;
use kd_device::{Half, Twin};
use kdcfile_copies::kdcfile_mending::{CopyError, copy_over};
use std::alloc::Global;

/// The other half.
pub(crate) fn other(half: Half) -> Half
    ensures { result ≡ other half }
{
    match half {
        Half::First => Half::Second,
        Half::Second => Half::First,
    }
}

/// Writes the other half anew from this one, which has the copy that counts, and answers which half is lost: the other one,
/// where a call on it failed.
pub(crate) fn write_anew<T: Twin>(
    alloc: Global,
    twin: &mut T,
    source: Half,
) -> Result<Option<Half>, FilesError>
    requires at_rest { IsTrue (T.both twin.old).told → BothRest (T.both twin.old) (T.leaves twin.old) }
    requires open { IsTrue (T.both twin.old).told → get_or (disk_of source (T.both twin.old)).holds 0 0 ≡ 75 }
    ensures any_moment { IsTrue (T.both twin.old).told → (i : Identity) (n : ℕ) (t : TableRows) → IsSource source i n t (T.both twin.old).first.holds (T.both twin.old).second.holds → StaysWithin (IsSource source i n t) (T.both twin.old) (T.both twin.new) (T.leaves twin.old) (T.leaves twin.new) }
    ensures halves { IfOk result (λ lost. IsTrue (T.both twin.old).told → (i : Identity) (n : ℕ) (t : TableRows) → IsSource source i n t (T.both twin.old).first.holds (T.both twin.old).second.holds → EachStands i t (Some n) lost (T.both twin.new)) }
    ensures copied { IfOk result (λ lost. lost ≡ None → IsTrue (T.both twin.old).told → BeginsWith (disk_of source (T.both twin.old)).holds (disk_of (other source) (T.both twin.new)).holds) }
    ensures source_stays { IsTrue (T.both twin.old).told → (disk_of source (T.both twin.new)).holds ≡ (disk_of source (T.both twin.old)).holds }
    ensures put_most { IsTrue (T.both twin.old).told → (disk_of (other source) (T.both twin.new)).put ≤ (disk_of (other source) (T.both twin.old)).put + mending_most (disk_of source (T.both twin.old)).holds }
    ensures source_put { IsTrue (T.both twin.old).told → (disk_of source (T.both twin.new)).put ≡ (disk_of source (T.both twin.old)).put }
    ensures at_rest { IfOk result (λ lost. lost ≡ None → IsTrue (T.both twin.old).told → BothRest (T.both twin.new) (T.leaves twin.new)) }
    ensures lost { IfOk result (λ lost. (half : Side) → lost ≡ Some half → (half ≡ other source) × RoseAt half (T.both twin.old) (T.both twin.new)) }
    ensures fine { IfOk result (λ lost. (half : Side) → (lost ≡ Some half → ⊥) → SameFaultsAt half (T.both twin.old) (T.both twin.new)) }
    ensures line { (T.both twin.new).line_faults ≡ (T.both twin.old).line_faults }
    ensures told { (IsErrOf result FilesError.TwoMeanings → ⊥) × ((why : Cause) → IsErrOf result (FilesError.Refused why) → ⊥) × ((n : ℕ) → IsErrOf result (FilesError.Spent n) → ⊥) }
    ensures failed { IsErrOf result FilesError.Failed → RoseAt source (T.both twin.old) (T.both twin.new) }
    ensures memory { (IsErrOf result FilesError.Failed → ⊥) → SameFaultsAt source (T.both twin.old) (T.both twin.new) }
    ensures frame { FrameBoth (T.both twin.old) (T.both twin.new) }
{
    match copy_over(alloc, twin, source) {
        Ok(()) => Ok(None),
        Err(CopyError::Target) => Ok(Some(other(source))),
        Err(CopyError::Source) => Err(FilesError::Failed),
        Err(CopyError::Memory) => Err(FilesError::Memory),
    }
}
