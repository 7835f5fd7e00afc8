//! A commit, or a reading, on one half.
ghost use Rattle.std.specs.Prelude.{◌≡◌, ℕ, List, IsTrue, IfOk, OnErr, IsErrOf, Some};
ghost use Rattle.kd_device.specs.{Device.{Frame, SameNames}, Rest.{Rests}};
ghost use Rattle.kd_records.specs.Contents.{IsPatch};
ghost use Rattle.kd_device.specs.Twin.{half_state, half_leaves, other};
ghost use Rattle.kdcfile_copies.specs.Copies.{HasNoSequence};
ghost use Rattle.kdcfile_copies.specs.Beside.{SameDisk, LeavesBeside, NoMore, OtherStays};
ghost use Rattle.kdcfile_double.specs.{Twice.{SameFaultsAt}, Committing.{CanTakeIf, IsKeptAt, IsLineFine, IsNextIf, IsSameIf, WithinOne, IsLostSo, lost_with}, OneHalfLaws.{KeepsSome}};

use crate::alike::are_alike;
use device_acts::warm_start::OpenError;
use kd_base::OutOfMemory;
use kd_device::{DeviceError, Half, Twin};
use kd_records::Patch;
use kdcfile_copies::kdcfile_halves::{commit_half, load_half};
use kdcfile_copies::{Found, LoadedCopy};
use std::alloc::Global;

// A call failed on this half: it is the one that is lost, where none was.
fn mark_lost(lost: &mut Option<Half>, half: Half)
    ensures { lost.new ≡ lost_with lost.old half }
{
    if lost.is_none() {
        *lost = Some(half);
    }
}

/// A commit on a half, where it is in use. Where a call fails there it is not in use any more, and lost.
pub(crate) fn commit_one<T: Twin>(
    alloc: Global,
    twin: &mut T,
    half: Half,
    copy: Option<LoadedCopy>,
    patch: &Patch,
    next: &Patch,
    lost: &mut Option<Half>,
) -> Result<Option<LoadedCopy>, OutOfMemory>
    requires can { CanTakeIf copy patch.now next.now }
    requires kept { IsTrue (T.both twin.old).told → IsKeptAt half copy (T.both twin.old) (T.leaves twin.old) }
    requires patch { IsPatch patch.now }
    requires plain { HasNoSequence patch.now }
    ensures next { IfOk result (λ q. IsNextIf copy patch.now q) }
    ensures kept { IfOk result (λ q. IsTrue (T.both twin.old).told → IsKeptAt half q (T.both twin.new) (T.leaves twin.new)) }
    ensures sent { IsTrue (T.both twin.old).told → (T.both twin.new).sent ≡ (T.both twin.old).sent }
    ensures any_moment { IsTrue (T.both twin.old).told → LeavesBeside half (T.both twin.old) (T.both twin.new) (T.leaves twin.old) (T.leaves twin.new) (WithinOne copy patch.now (T.both twin.old).sent) }
    ensures other_half { SameDisk (other half) (T.both twin.old) (T.both twin.new) }
    ensures other_stays { IsTrue (T.both twin.old).told → OtherStays half (T.both twin.old) (T.both twin.new) (T.leaves twin.old) (T.leaves twin.new) }
    ensures lost { IfOk result (λ q. IsLostSo half copy q lost.old lost.new (T.both twin.old) (T.both twin.new)) }
    ensures memory { OnErr result ((lost.new ≡ lost.old) × SameFaultsAt half (T.both twin.old) (T.both twin.new)) }
    ensures used { OnErr result ((p : LoadedCopy) × (copy ≡ Some p)) }
    ensures line { IsLineFine half copy (T.both twin.old) (T.both twin.new) }
    ensures frame { Frame (half_state half (T.both twin.old)) (half_state half (T.both twin.new)) }
    ensures names { SameNames (half_state half (T.both twin.old)) (half_state half (T.both twin.new)) }
{
    let Some(mut kept) = copy else {
        return Ok(None);
    };
    match commit_half(alloc, twin, half, &mut kept, patch, next) {
        Ok(()) => Ok(Some(kept)),
        Err(DeviceError::Failed) => {
            mark_lost(lost, half);
            Ok(None)
        }
        Err(DeviceError::Memory) => Err(OutOfMemory),
    }
}

/// Reads the copy of a half again, where it is in use. Where a call fails there it is not in use any more, and lost.
pub(crate) fn reload<T: Twin>(
    alloc: Global,
    twin: &mut T,
    half: Half,
    copy: Option<LoadedCopy>,
    lost: &mut Option<Half>,
) -> Result<Option<LoadedCopy>, OpenError>
    requires keeps { KeepsSome copy }
    requires kept { IsTrue (T.both twin.old).told → IsKeptAt half copy (T.both twin.old) (T.leaves twin.old) }
    ensures same { IfOk result (λ q. IsSameIf copy q) }
    ensures kept { IfOk result (λ q. IsTrue (T.both twin.old).told → IsKeptAt half q (T.both twin.new) (T.leaves twin.new)) }
    ensures any_moment { IsTrue (T.both twin.old).told → LeavesBeside half (T.both twin.old) (T.both twin.new) (T.leaves twin.old) (T.leaves twin.new) NoMore }
    ensures other_half { SameDisk (other half) (T.both twin.old) (T.both twin.new) }
    ensures other_stays { IsTrue (T.both twin.old).told → OtherStays half (T.both twin.old) (T.both twin.new) (T.leaves twin.old) (T.leaves twin.new) }
    ensures lost { IfOk result (λ q. IsLostSo half copy q lost.old lost.new (T.both twin.old) (T.both twin.new)) }
    ensures rests { IsTrue (T.both twin.old).told → Rests (half_state half (T.both twin.old)) (half_state half (T.both twin.new)) (half_leaves half (T.leaves twin.old)) (half_leaves half (T.leaves twin.new)) }
    ensures refused { IsErrOf result OpenError.NotKdcfile → IsTrue (T.both twin.old).told → ⊥ }
    ensures other { (stored : List ℕ) → IsErrOf result (OpenError.OtherGeneration stored) → ⊥ }
    ensures failed { IsErrOf result OpenError.Failed → ⊥ }
    ensures unread { OnErr result (((p : LoadedCopy) × (copy ≡ Some p)) × SameFaultsAt half (T.both twin.old) (T.both twin.new)) }
    ensures line { IsLineFine half copy (T.both twin.old) (T.both twin.new) }
    ensures frame { Frame (half_state half (T.both twin.old)) (half_state half (T.both twin.new)) }
    ensures names { SameNames (half_state half (T.both twin.old)) (half_state half (T.both twin.new)) }
{
    let Some(kept) = copy else {
        return Ok(None);
    };
    match load_half(alloc, twin, half) {
        Ok(Found::Copy(again)) => {
            if !are_alike(&kept, &again) {
                return Err(OpenError::NotKdcfile);
            }
            Ok(Some(again))
        }
        Ok(Found::Empty) => Err(OpenError::NotKdcfile),
        Ok(Found::NoCopy) => Err(OpenError::NotKdcfile),
        Err(DeviceError::Failed) => {
            mark_lost(lost, half);
            Ok(None)
        }
        Err(DeviceError::Memory) => Err(OpenError::Memory),
    }
}
