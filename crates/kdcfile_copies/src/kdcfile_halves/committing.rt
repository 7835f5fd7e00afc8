//! A commit, on one half.
ghost use Rattle.std.specs.Prelude.{◌≡◌, ◌≤◌, ◌<◌, ◌+◌, ◌^◌, IsTrue, OnOk, IsErrOf};
ghost use Rattle.kd_device.specs.{Device.{Rose, Frame, SameFaults, SameNames}, Rest.{Rests}};
ghost use Rattle.kd_records.specs.{Charge.{total_charge}, Contents.{IsPatch, patched}};
ghost use Rattle.kd_device.specs.{Twin.{half_state, half_leaves, other}, Apart.{IsSince}};
ghost use Rattle.kdcfile_store.specs.{Kept.{IsKept}, Paged.{HasFile}};
ghost use Rattle.kdcfile_copies.specs.{Copies.{HasNoSequence, bare, next_patch}, Keeping.{CopyKeeps, OldOrNextCopy, LeavesNextCopy}};
ghost use Rattle.kdcfile_copies.specs.Beside.{SameDisk, LeavesBeside, OtherStays};

use crate::{LoadedCopy, commit_copy};
use kd_device::{DeviceError, Half, HalfDevice, HalfOrigin, Twin};
use kd_records::Patch;
use std::alloc::Global;
use std::marker::Brand;

fn commit_on<T: Twin, O: HalfOrigin>(
    alloc: Global,
    twin: T,
    half: Half,
    copy: &mut LoadedCopy,
    patch: &Patch,
    next: &Patch,
) -> (T, Result<(), DeviceError>)
    requires half { half ≡ O.half }
    requires since { IsSince O.half O.place (T.place twin) O.both (T.both twin) O.leaves (T.leaves twin) }
    requires keeps { CopyKeeps copy.old.store copy.old.sequence (bare copy.old.store.content) }
    requires kept { IsTrue (T.both twin).told → IsKept (HasFile copy.old.store) (half_state O.half (T.both twin)) (half_leaves O.half (T.leaves twin)) }
    requires patch { IsPatch patch.now }
    requires no_sequence { HasNoSequence patch.now }
    requires next { next.now ≡ next_patch (copy.old.sequence + 1) patch.now }
    requires sequence { copy.old.sequence + 1 < 2 ^ 64 }
    requires charge_before { total_charge copy.old.store.identity.blksize (bare copy.old.store.content).items + 1 ≤ copy.old.store.identity.pages }
    requires charge_after { total_charge copy.old.store.identity.blksize (patched (bare copy.old.store.content) patch.now).items + 1 ≤ copy.old.store.identity.pages }
    ensures since { IsSince O.half O.place (T.place result.0) O.both (T.both result.0) O.leaves (T.leaves result.0) }
    ensures keeps { OnOk result.1 (CopyKeeps copy.new.store (copy.old.sequence + 1) (patched (bare copy.old.store.content) patch.now)) }
    ensures sequence { OnOk result.1 (copy.new.sequence ≡ copy.old.sequence + 1) }
    ensures identity { copy.new.store.identity ≡ copy.old.store.identity }
    ensures kept { OnOk result.1 (IsTrue (T.both twin).told → IsKept (HasFile copy.new.store) (half_state O.half (T.both result.0)) (half_leaves O.half (T.leaves result.0))) }
    ensures sent { IsTrue (T.both twin).told → (T.both result.0).sent ≡ (T.both twin).sent }
    ensures any_moment { IsTrue (T.both twin).told → LeavesNextCopy copy.old.store.identity copy.old.sequence (bare copy.old.store.content) (patched (bare copy.old.store.content) patch.now) (half_state O.half (T.both twin)) (half_state O.half (T.both result.0)) (half_leaves O.half (T.leaves twin)) (half_leaves O.half (T.leaves result.0)) }
    ensures failed { IsErrOf result.1 DeviceError.Failed → Rose (half_state O.half (T.both twin)).disk_faults (half_state O.half (T.both result.0)).disk_faults }
    ensures memory { IsErrOf result.1 DeviceError.Memory → IsTrue (T.both twin).told → Rests (half_state O.half (T.both twin)) (half_state O.half (T.both result.0)) (half_leaves O.half (T.leaves twin)) (half_leaves O.half (T.leaves result.0)) }
    ensures memory_copy { IsErrOf result.1 DeviceError.Memory → copy.new ≡ copy.old }
    ensures fine { (IsErrOf result.1 DeviceError.Failed → ⊥) → SameFaults (half_state O.half (T.both twin)) (half_state O.half (T.both result.0)) }
    ensures frame { Frame (half_state O.half (T.both twin)) (half_state O.half (T.both result.0)) }
    ensures names { SameNames (half_state O.half (T.both twin)) (half_state O.half (T.both result.0)) }
{
    let mut device: HalfDevice<T, O> = HalfDevice::new(twin, half);
    let done = commit_copy(alloc, &mut device, copy, patch, next);
    (device.into_twin(), done)
}

/// Makes the changes of a patch in the copy on this half, which then is that of the next sequence, whole or not at all.
/// `next` is the patch with that sequence; whoever keeps two copies makes it once for both.
pub fn commit_half<T: Twin>(
    alloc: Global,
    twin: &mut T,
    half: Half,
    copy: &mut LoadedCopy,
    patch: &Patch,
    next: &Patch,
) -> Result<(), DeviceError>
    requires keeps { CopyKeeps copy.old.store copy.old.sequence (bare copy.old.store.content) }
    requires kept { IsTrue (T.both twin.old).told → IsKept (HasFile copy.old.store) (half_state half (T.both twin.old)) (half_leaves half (T.leaves twin.old)) }
    requires patch { IsPatch patch.now }
    requires no_sequence { HasNoSequence patch.now }
    requires next { next.now ≡ next_patch (copy.old.sequence + 1) patch.now }
    requires sequence { copy.old.sequence + 1 < 2 ^ 64 }

    // There is a page for the sequence beside the pages of the content.
    requires charge_before { total_charge copy.old.store.identity.blksize (bare copy.old.store.content).items + 1 ≤ copy.old.store.identity.pages }
    requires charge_after { total_charge copy.old.store.identity.blksize (patched (bare copy.old.store.content) patch.now).items + 1 ≤ copy.old.store.identity.pages }

    ensures keeps { OnOk result (CopyKeeps copy.new.store (copy.old.sequence + 1) (patched (bare copy.old.store.content) patch.now)) }
    ensures sequence { OnOk result (copy.new.sequence ≡ copy.old.sequence + 1) }
    ensures identity { copy.new.store.identity ≡ copy.old.store.identity }
    ensures kept { OnOk result (IsTrue (T.both twin.old).told → IsKept (HasFile copy.new.store) (half_state half (T.both twin.new)) (half_leaves half (T.leaves twin.new))) }
    ensures sent { IsTrue (T.both twin.old).told → (T.both twin.new).sent ≡ (T.both twin.old).sent }

    // A stop at any moment of the call leaves the old copy or the next one.
    ensures any_moment { IsTrue (T.both twin.old).told → LeavesBeside half (T.both twin.old) (T.both twin.new) (T.leaves twin.old) (T.leaves twin.new) (OldOrNextCopy copy.old.store.identity copy.old.sequence (bare copy.old.store.content) (patched (bare copy.old.store.content) patch.now) (T.both twin.old).sent) }

    ensures other_half { SameDisk (other half) (T.both twin.old) (T.both twin.new) }
    ensures other_stays { IsTrue (T.both twin.old).told → OtherStays half (T.both twin.old) (T.both twin.new) (T.leaves twin.old) (T.leaves twin.new) }
    ensures failed { IsErrOf result DeviceError.Failed → Rose (half_state half (T.both twin.old)).disk_faults (half_state half (T.both twin.new)).disk_faults }
    ensures memory { IsErrOf result DeviceError.Memory → IsTrue (T.both twin.old).told → Rests (half_state half (T.both twin.old)) (half_state half (T.both twin.new)) (half_leaves half (T.leaves twin.old)) (half_leaves half (T.leaves twin.new)) }
    ensures memory_copy { IsErrOf result DeviceError.Memory → copy.new ≡ copy.old }
    ensures fine { (IsErrOf result DeviceError.Failed → ⊥) → SameFaults (half_state half (T.both twin.old)) (half_state half (T.both twin.new)) }
    ensures frame { Frame (half_state half (T.both twin.old)) (half_state half (T.both twin.new)) }
    ensures names { SameNames (half_state half (T.both twin.old)) (half_state half (T.both twin.new)) }
{
    let (_, done) = commit_on::<&mut T, Brand>(alloc, twin, half, copy, patch, next);
    done
}
