//! What is on one half.
ghost use Rattle.std.specs.Prelude.{◌≡◌, IsTrue, IfOk, IsErrOf};
ghost use Rattle.kd_device.specs.{Device.{Rose, Frame, SameFaults, SameNames}, Rest.{Rests}};
ghost use Rattle.kd_device.specs.{Twin.{half_state, half_leaves, other}, Apart.{IsSince}};
ghost use Rattle.kdcfile_store.specs.Kept.{IsKept};
ghost use Rattle.kdcfile_copies.specs.Finding.{IsAnswer, IsFound};
ghost use Rattle.kdcfile_copies.specs.Beside.{SameDisk, LeavesBeside, NoMore, OtherStays};

use crate::{Found, load_copy};
use kd_device::{DeviceError, Half, HalfDevice, HalfOrigin, Twin};
use std::alloc::Global;
use std::marker::Brand;

fn load_on<T: Twin, O: HalfOrigin>(
    alloc: Global,
    twin: T,
    half: Half,
) -> (T, Result<Found, DeviceError>)
    requires half { half ≡ O.half }
    requires since { IsSince O.half O.place (T.place twin) O.both (T.both twin) O.leaves (T.leaves twin) }
    ensures since { IsSince O.half O.place (T.place result.0) O.both (T.both result.0) O.leaves (T.leaves result.0) }
    ensures found { IfOk result.1 (λ f. IsFound f) }
    ensures answer { IfOk result.1 (λ f. IsTrue (T.both twin).told → IsAnswer f (half_state O.half (T.both twin)).holds) }
    ensures kept { IfOk result.1 (λ f. IsTrue (T.both twin).told → IsKept (IsAnswer f) (half_state O.half (T.both result.0)) (half_leaves O.half (T.leaves result.0))) }
    ensures rests { IsTrue (T.both twin).told → Rests (half_state O.half (T.both twin)) (half_state O.half (T.both result.0)) (half_leaves O.half (T.leaves twin)) (half_leaves O.half (T.leaves result.0)) }
    ensures failed { IsErrOf result.1 DeviceError.Failed → Rose (half_state O.half (T.both twin)).disk_faults (half_state O.half (T.both result.0)).disk_faults }
    ensures fine { (IsErrOf result.1 DeviceError.Failed → ⊥) → SameFaults (half_state O.half (T.both twin)) (half_state O.half (T.both result.0)) }
    ensures frame { Frame (half_state O.half (T.both twin)) (half_state O.half (T.both result.0)) }
    ensures names { SameNames (half_state O.half (T.both twin)) (half_state O.half (T.both result.0)) }
{
    let mut device: HalfDevice<T, O> = HalfDevice::new(twin, half);
    let found = load_copy(alloc, &mut device);
    (device.into_twin(), found)
}

/// Tells what the file of this half is: empty, no copy, or a copy, which is loaded. It stays as it is, and what was pending
/// of it is synced.
pub fn load_half<T: Twin>(alloc: Global, twin: &mut T, half: Half) -> Result<Found, DeviceError>
    ensures found { IfOk result (λ f. IsFound f) }
    ensures answer { IfOk result (λ f. IsTrue (T.both twin.old).told → IsAnswer f (half_state half (T.both twin.old)).holds) }
    ensures kept { IfOk result (λ f. IsTrue (T.both twin.old).told → IsKept (IsAnswer f) (half_state half (T.both twin.new)) (half_leaves half (T.leaves twin.new))) }
    ensures rests { IsTrue (T.both twin.old).told → Rests (half_state half (T.both twin.old)) (half_state half (T.both twin.new)) (half_leaves half (T.leaves twin.old)) (half_leaves half (T.leaves twin.new)) }
    ensures any_moment { IsTrue (T.both twin.old).told → LeavesBeside half (T.both twin.old) (T.both twin.new) (T.leaves twin.old) (T.leaves twin.new) NoMore }
    ensures other_half { SameDisk (other half) (T.both twin.old) (T.both twin.new) }
    ensures other_stays { IsTrue (T.both twin.old).told → OtherStays half (T.both twin.old) (T.both twin.new) (T.leaves twin.old) (T.leaves twin.new) }
    ensures failed { IsErrOf result DeviceError.Failed → Rose (half_state half (T.both twin.old)).disk_faults (half_state half (T.both twin.new)).disk_faults }
    ensures fine { (IsErrOf result DeviceError.Failed → ⊥) → SameFaults (half_state half (T.both twin.old)) (half_state half (T.both twin.new)) }
    ensures frame { Frame (half_state half (T.both twin.old)) (half_state half (T.both twin.new)) }
    ensures names { SameNames (half_state half (T.both twin.old)) (half_state half (T.both twin.new)) }
{
    let (twin, found) = load_on::<&mut T, Brand>(alloc, twin, half);
    let _ = twin;
    found
}
