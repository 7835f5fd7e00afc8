//! A commit of one copy.
ghost use Rattle.std.specs.Prelude.{◌≡◌, ◌≤◌, ◌<◌, ◌+◌, ◌-◌, ◌^◌, IsTrue, OnOk, IsErrOf};
ghost use Rattle.kd_device.specs.{Device.{Rose, Frame, SameFaults, SameNames}, Rest.{Rests}};
ghost use Rattle.kd_records.specs.{Charge.{total_charge}, Contents.{IsPatch, patched}};
ghost use Rattle.kdcfile_store.specs.{Kept.{IsKept}, Paged.{HasFile}};
ghost use Rattle.kdcfile_copies.specs.{Copies.{HasNoSequence, bare, next_patch}, Keeping.{CopyKeeps, LeavesNextCopy}};

use crate::answer::LoadedCopy;
use kd_device::{Device, DeviceError};
use kd_records::Patch;
use kdcfile_store::Store;
use std::alloc::Global;

/// Makes the changes of a patch in a copy, which then is that of the next sequence, whole or not at all. `next` is the
/// patch with that sequence; whoever keeps two copies makes it once for both.
pub fn commit_copy<D: Device>(
    alloc: Global,
    device: &mut D,
    copy: &mut LoadedCopy,
    patch: &Patch,
    next: &Patch,
) -> Result<(), DeviceError>
    requires keeps { CopyKeeps copy.old.store copy.old.sequence (bare copy.old.store.content) }
    requires kept { IsTrue (D.state device.old).told → IsKept (HasFile copy.old.store) (D.state device.old) (D.leaves device.old) }
    requires patch { IsPatch patch.now }
    requires no_sequence { HasNoSequence patch.now }
    requires next { next.now ≡ next_patch (copy.old.sequence + 1) patch.now }
    requires sequence { copy.old.sequence + 1 < 2 ^ 64 }

    // There is a page for the sequence beside the pages of the content.
    requires charge_before { total_charge copy.old.store.identity.blksize (bare copy.old.store.content).items + 1 ≤ copy.old.store.identity.pages }
    requires charge_after { total_charge copy.old.store.identity.blksize (patched (bare copy.old.store.content) patch.now).items + 1 ≤ copy.old.store.identity.pages }

    ensures keeps { OnOk result (CopyKeeps copy.new.store (copy.old.sequence + 1) (patched (bare copy.old.store.content) patch.now)) }
    ensures sequence { OnOk result (copy.new.sequence ≡ copy.old.sequence + 1) }
    ensures identity { copy.new.store.identity ≡ copy.old.store.identity }
    ensures kept { OnOk result (IsTrue (D.state device.old).told → IsKept (HasFile copy.new.store) (D.state device.new) (D.leaves device.new)) }
    ensures sent { IsTrue (D.state device.old).told → (D.state device.new).sent ≡ (D.state device.old).sent }

    // A stop at any moment of the call leaves the old copy or the next one.
    ensures any_moment { IsTrue (D.state device.old).told → LeavesNextCopy copy.old.store.identity copy.old.sequence (bare copy.old.store.content) (patched (bare copy.old.store.content) patch.now) (D.state device.old) (D.state device.new) (D.leaves device.old) (D.leaves device.new) }

    ensures failed { IsErrOf result DeviceError.Failed → Rose (D.state device.old).disk_faults (D.state device.new).disk_faults }
    ensures memory { IsErrOf result DeviceError.Memory → IsTrue (D.state device.old).told → Rests (D.state device.old) (D.state device.new) (D.leaves device.old) (D.leaves device.new) }
    ensures memory_copy { IsErrOf result DeviceError.Memory → copy.new ≡ copy.old }
    ensures fine { (IsErrOf result DeviceError.Failed → ⊥) → SameFaults (D.state device.old) (D.state device.new) }
    ensures frame { Frame (D.state device.old) (D.state device.new) }
    ensures names { SameNames (D.state device.old) (D.state device.new) }
{
    copy.store.commit(alloc, device, next)?;
    copy.sequence += 1;
    Ok(())
}
