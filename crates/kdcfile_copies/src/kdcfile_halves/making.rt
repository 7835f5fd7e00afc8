//! The first copy, on one half.
ghost use Rattle.std.specs.Prelude.{◌≡◌, [], IsTrue, IfOk, IsErrOf};
ghost use Rattle.kd_device.specs.Device.{Rose, Frame, SameFaults, SameNames, Only};
ghost use Rattle.kd_records.specs.Identity.{IsIdentity};
ghost use Rattle.kd_device.specs.{Twin.{half_state, half_leaves, other}, Apart.{IsSince}};
ghost use Rattle.kdcfile_layout.specs.Layout.{fresh};
ghost use Rattle.kdcfile_store.specs.{Kept.{IsKept}, Paged.{HasFile, identity_with}};
ghost use Rattle.kdcfile_copies.specs.Keeping.{CopyKeeps, BeingMade, LeavesCopyMade, LeavesNoCopy};
ghost use Rattle.kdcfile_copies.specs.Beside.{SameDisk, LeavesBeside, OtherStays};

use crate::{LoadedCopy, make_copy};
use kd_device::{DeviceError, Half, HalfDevice, HalfOrigin, Twin};
use kdcfile_store::StoreLimits;
use std::alloc::Global;
use std::marker::Brand;

fn make_on<T: Twin, O: HalfOrigin>(
    alloc: Global,
    twin: T,
    half: Half,
    limits: &StoreLimits,
    fingerprint: &[u8; 32],
) -> (T, Result<LoadedCopy, DeviceError>)
    requires half { half ≡ O.half }
    requires since { IsSince O.half O.place (T.place twin) O.both (T.both twin) O.leaves (T.leaves twin) }
    requires identity { IsIdentity (identity_with limits.now fingerprint.now) }
    requires empty { IsTrue (T.both twin).told → (half_state O.half (T.both twin)).holds ≡ [] }
    requires at_rest { IsTrue (T.both twin).told → Only (half_state O.half (T.both twin)).holds (half_state O.half (T.both twin)) (half_leaves O.half (T.leaves twin)) }
    ensures since { IsSince O.half O.place (T.place result.0) O.both (T.both result.0) O.leaves (T.leaves result.0) }
    ensures identity { IfOk result.1 (λ c. c.store.identity ≡ identity_with limits.now fingerprint.now) }
    ensures sequence { IfOk result.1 (λ c. c.sequence ≡ 0) }
    ensures keeps { IfOk result.1 (λ c. CopyKeeps c.store 0 fresh) }
    ensures kept { IfOk result.1 (λ c. IsTrue (T.both twin).told → IsKept (HasFile c.store) (half_state O.half (T.both result.0)) (half_leaves O.half (T.leaves result.0))) }
    ensures sent { IsTrue (T.both twin).told → (T.both result.0).sent ≡ (T.both twin).sent }
    ensures any_moment { IsTrue (T.both twin).told → LeavesCopyMade (identity_with limits.now fingerprint.now) (half_state O.half (T.both twin)) (half_state O.half (T.both result.0)) (half_leaves O.half (T.leaves twin)) (half_leaves O.half (T.leaves result.0)) }
    ensures failed { IsErrOf result.1 DeviceError.Failed → Rose (half_state O.half (T.both twin)).disk_faults (half_state O.half (T.both result.0)).disk_faults }
    ensures memory { IsErrOf result.1 DeviceError.Memory → IsTrue (T.both twin).told → LeavesNoCopy (half_state O.half (T.both result.0)) (half_leaves O.half (T.leaves result.0)) }
    ensures fine { (IsErrOf result.1 DeviceError.Failed → ⊥) → SameFaults (half_state O.half (T.both twin)) (half_state O.half (T.both result.0)) }
    ensures frame { Frame (half_state O.half (T.both twin)) (half_state O.half (T.both result.0)) }
    ensures names { SameNames (half_state O.half (T.both twin)) (half_state O.half (T.both result.0)) }
{
    let mut device: HalfDevice<T, O> = HalfDevice::new(twin, half);
    let made = make_copy(alloc, &mut device, limits, fingerprint);
    (device.into_twin(), made)
}

/// Makes the file of this half, which is empty, and commits the sequence 0. A stop leaves no copy there, or the first one;
/// so does a call that fails.
pub fn make_half<T: Twin>(
    alloc: Global,
    twin: &mut T,
    half: Half,
    limits: &StoreLimits,
    fingerprint: &[u8; 32],
) -> Result<LoadedCopy, DeviceError>
    requires identity { IsIdentity (identity_with limits.now fingerprint.now) }
    requires empty { IsTrue (T.both twin.old).told → (half_state half (T.both twin.old)).holds ≡ [] }
    requires at_rest { IsTrue (T.both twin.old).told → Only (half_state half (T.both twin.old)).holds (half_state half (T.both twin.old)) (half_leaves half (T.leaves twin.old)) }
    ensures identity { IfOk result (λ c. c.store.identity ≡ identity_with limits.now fingerprint.now) }
    ensures sequence { IfOk result (λ c. c.sequence ≡ 0) }
    ensures keeps { IfOk result (λ c. CopyKeeps c.store 0 fresh) }
    ensures kept { IfOk result (λ c. IsTrue (T.both twin.old).told → IsKept (HasFile c.store) (half_state half (T.both twin.new)) (half_leaves half (T.leaves twin.new))) }
    ensures sent { IsTrue (T.both twin.old).told → (T.both twin.new).sent ≡ (T.both twin.old).sent }
    ensures any_moment { IsTrue (T.both twin.old).told → LeavesBeside half (T.both twin.old) (T.both twin.new) (T.leaves twin.old) (T.leaves twin.new) (BeingMade (identity_with limits.now fingerprint.now) (T.both twin.old).sent) }
    ensures other_half { SameDisk (other half) (T.both twin.old) (T.both twin.new) }
    ensures other_stays { IsTrue (T.both twin.old).told → OtherStays half (T.both twin.old) (T.both twin.new) (T.leaves twin.old) (T.leaves twin.new) }
    ensures failed { IsErrOf result DeviceError.Failed → Rose (half_state half (T.both twin.old)).disk_faults (half_state half (T.both twin.new)).disk_faults }

    // Where memory runs out, the file is empty still, or an image without the sequence.
    ensures memory { IsErrOf result DeviceError.Memory → IsTrue (T.both twin.old).told → LeavesNoCopy (half_state half (T.both twin.new)) (half_leaves half (T.leaves twin.new)) }

    ensures fine { (IsErrOf result DeviceError.Failed → ⊥) → SameFaults (half_state half (T.both twin.old)) (half_state half (T.both twin.new)) }
    ensures frame { Frame (half_state half (T.both twin.old)) (half_state half (T.both twin.new)) }
    ensures names { SameNames (half_state half (T.both twin.old)) (half_state half (T.both twin.new)) }
{
    let (twin, made) = make_on::<&mut T, Brand>(alloc, twin, half, limits, fingerprint);
    let _ = twin;
    made
}
