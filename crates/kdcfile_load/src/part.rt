//! A page, read from the file, and the part of a record on it.
ghost use Rattle.std.specs.{Prelude.{◌≡◌, ◌≤◌, ◌+◌, List, ℕ, IsTrue, length, IfOk, IfSome, IsErrOf}, Option.{option_map}};
ghost use Rattle.kd_device.specs.{Device.{Rose, Frame, SameFaults, SameNames}, Rest.{Rests}};
ghost use Rattle.kdcfile_layout.specs.Chains.{part_at};
ghost use Rattle.kdcfile_load.specs.Reads.{page_in};

use kd_base::OutOfMemory;
use kd_device::{Device, DeviceError};
use kd_records::RecordKey;
use kdcfile_layout::kdcfile_read::{Part, part_of};
use kdcfile_layout::{page_place, read_part};
use std::alloc::Global;

/// The bytes of a page, as far as the file goes; none, if there is no such page.
pub fn page_in<D: Device>(
    alloc: Global,
    device: &mut D,
    size: u32,
    count: u32,
    page: u32,
) -> Result<Vec<u8>, DeviceError>
    requires block { size ≤ 8192 }
    ensures value { IfOk result (λ bytes. IsTrue (D.state device.old).told → bytes.items ≡ page_in size count (D.state device.old).holds page) }
    ensures rests { IsTrue (D.state device.old).told → Rests (D.state device.old) (D.state device.new) (D.leaves device.old) (D.leaves device.new) }
    ensures failed { IsErrOf result DeviceError.Failed → Rose (D.state device.old).disk_faults (D.state device.new).disk_faults }
    ensures fine { (IsErrOf result DeviceError.Failed → ⊥) → SameFaults (D.state device.old) (D.state device.new) }
    ensures frame { Frame (D.state device.old) (D.state device.new) }
    ensures names { SameNames (D.state device.old) (D.state device.new) }
{
    if page >= count {
        return Ok(Vec::new(alloc));
    }
    read_part(alloc, device, page_place(size, page), size as usize)
}

/// The part of a value on a page with these bytes, if it is this part of this record.
pub fn part_on(
    alloc: Global,
    size: u32,
    key: &RecordKey,
    whole: u32,
    part: u32,
    page: &Vec<u8>,
) -> Result<Option<Part>, OutOfMemory>
    requires size { 48 ≤ size }
    ensures value { IfOk result (λ o. (count p : ℕ) (h : List ℕ) → page.now.items ≡ page_in size count h p → option_map (λ q. (q.next, q.bytes)) o ≡ part_at size count h key.now whole part p) }
    ensures long { IfOk result (λ o. IfSome o (λ q. size ≤ length q.bytes + 48)) }
{
    part_of(alloc, size, key, whole, part, page.as_slice())
}
