//! The first copy.
ghost use Rattle.std.specs.Prelude.{◌≡◌, [], IsTrue, IfOk, IsErrOf};
ghost use Rattle.kd_device.specs.Device.{Rose, Frame, SameFaults, SameNames, Only};
ghost use Rattle.kd_records.specs.Identity.{IsIdentity};
ghost use Rattle.kdcfile_layout.specs.Layout.{fresh};
ghost use Rattle.kdcfile_store.specs.{Kept.{IsKept}, Paged.{HasFile, identity_with}};
ghost use Rattle.kdcfile_copies.specs.{Copies.{sequence_alone}, Keeping.{CopyKeeps, LeavesCopyMade, LeavesNoCopy}};

use crate::answer::LoadedCopy;
use crate::patching::sequenced;
use kd_base::OutOfMemory;
use kd_device::{Device, DeviceError};
use kd_records::{Patch, PatchItems};
use kdcfile_store::{PagedStore, Store, StoreLimits};
use std::alloc::Global;

// The patch that makes the first copy of a new file.
fn first_patch(alloc: Global) -> Result<Patch, OutOfMemory>
    ensures { IfOk result (λ p. p ≡ sequence_alone 0 fresh) }
{
    let patch = Patch {
        clock: 0,
        next_job: 1,
        items: PatchItems::new(alloc),
    };
    sequenced(alloc, &patch, 0)
}

/// Makes an empty file, and commits the sequence 0. A stop leaves no copy, or the first one; so does a call that fails.
pub fn make_copy<D: Device>(
    alloc: Global,
    device: &mut D,
    limits: &StoreLimits,
    fingerprint: &[u8; 32],
) -> Result<LoadedCopy, DeviceError>
    requires identity { IsIdentity (identity_with limits.now fingerprint.now) }
    requires empty { IsTrue (D.state device.old).told → (D.state device.old).holds ≡ [] }
    requires at_rest { IsTrue (D.state device.old).told → Only (D.state device.old).holds (D.state device.old) (D.leaves device.old) }
    ensures identity { IfOk result (λ c. c.store.identity ≡ identity_with limits.now fingerprint.now) }
    ensures sequence { IfOk result (λ c. c.sequence ≡ 0) }
    ensures keeps { IfOk result (λ c. CopyKeeps c.store 0 fresh) }
    ensures kept { IfOk result (λ c. IsTrue (D.state device.old).told → IsKept (HasFile c.store) (D.state device.new) (D.leaves device.new)) }
    ensures sent { IsTrue (D.state device.old).told → (D.state device.new).sent ≡ (D.state device.old).sent }
    ensures any_moment { IsTrue (D.state device.old).told → LeavesCopyMade (identity_with limits.now fingerprint.now) (D.state device.old) (D.state device.new) (D.leaves device.old) (D.leaves device.new) }
    ensures failed { IsErrOf result DeviceError.Failed → Rose (D.state device.old).disk_faults (D.state device.new).disk_faults }

    // Where memory runs out, the file is empty still, or an image without the sequence.
    ensures memory { IsErrOf result DeviceError.Memory → IsTrue (D.state device.old).told → LeavesNoCopy (D.state device.new) (D.leaves device.new) }

    ensures fine { (IsErrOf result DeviceError.Failed → ⊥) → SameFaults (D.state device.old) (D.state device.new) }
    ensures frame { Frame (D.state device.old) (D.state device.new) }
    ensures names { SameNames (D.state device.old) (D.state device.new) }
{
    let first = first_patch(alloc)?;
    let mut store = PagedStore::create(alloc, device, limits, fingerprint)?;
    store.commit(alloc, device, &first)?;
    Ok(LoadedCopy { store, sequence: 0 })
}
