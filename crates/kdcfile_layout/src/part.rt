//! Parts of a file.
ghost use Rattle.std.specs.Prelude.{◌≡◌, ◌≤◌, List, ℕ, IsTrue, length, take, drop, IfOk, OnOk, IsErrOf};
ghost use Rattle.kd_device.specs.{Device.{State, Rose, Frame, SameFaults, SameNames}, Rest.{Rests}};

use kd_base::OutOfMemory;
use kd_device::{Device, DeviceError};
use std::alloc::Global;

// So many zero bytes.
fn zero_bytes(alloc: Global, len: usize) -> Result<Vec<u8>, OutOfMemory>
    ensures { IfOk result (λ v. length v.items ≡ len) }
{
    Ok(vec![in alloc; 0; len]?)
}

/// At most `len` bytes from the place `at`, as far as the file goes. It takes memory for all of them.
pub fn read_part<D: Device>(
    alloc: Global,
    device: &mut D,
    at: u64,
    len: usize,
) -> Result<Vec<u8>, DeviceError>
    ensures value { IfOk result (λ part. IsTrue (D.state device.old).told → part.items ≡ take len (drop at (D.state device.old).holds)) }
    ensures rests { IsTrue (D.state device.old).told → Rests (D.state device.old) (D.state device.new) (D.leaves device.old) (D.leaves device.new) }
    ensures failed { IsErrOf result DeviceError.Failed → Rose (D.state device.old).disk_faults (D.state device.new).disk_faults }
    ensures fine { (IsErrOf result DeviceError.Failed → ⊥) → SameFaults (D.state device.old) (D.state device.new) }
    ensures frame { Frame (D.state device.old) (D.state device.new) }
    ensures names { SameNames (D.state device.old) (D.state device.new) }
{
    let mut part = zero_bytes(alloc, len)?;
    let read = device.read_at(at, part.as_mut_slice())?;
    part.truncate(read);
    Ok(part)
}
