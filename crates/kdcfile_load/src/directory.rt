//! The slots of a directory, read from the file.
ghost use Rattle.std.specs.{Prelude.{◌≡◌, ◌≤◌, ◌*◌, ◌++◌, List, ℕ, [], IsTrue, length, IfOk, IfSome, OnOk, IsErrOf}};
ghost use Rattle.kd_device.specs.{Device.{Rose, Frame, SameFaults, SameNames}, Rest.{Rests}};
ghost use Rattle.kd_records.specs.Charge.{IsBlockSize};
ghost use Rattle.kdcfile_layout.specs.Places.{At};
ghost use Rattle.kdcfile_layout.specs.{Fields.{AreBytes}, Layout.{slots_in_page}};
ghost use Rattle.kdcfile_layout.specs.Chains.{page_at};
ghost use Rattle.kdcfile_load.specs.Reads.{slots_at, directory_from, AreFirsts};

use kd_base::OutOfMemory;
use kd_device::{Device, DeviceError};
use kdcfile_layout::kdcfile_read::{First, FirstSlots, slots_of};
use kdcfile_layout::{page_place, read_part};
use std::alloc::Global;

// The slots of a page, if it is there and has just slots.
fn slots_at<D: Device>(
    alloc: Global,
    device: &mut D,
    size: u32,
    count: u32,
    page: u32,
) -> Result<Option<FirstSlots>, DeviceError>
    requires block { IsBlockSize size }
    ensures value { IfOk result (λ o. IsTrue (D.state device.old).told → o ≡ slots_at size count (D.state device.old).holds page) }
    ensures slots { IfOk result (λ o. IfSome o (λ s. AreFirsts (slots_in_page size) s)) }
    ensures bytes { IfOk result (λ o. IfSome o (λ s. IsTrue (D.state device.old).told → AreBytes (page_at size (D.state device.old).holds page))) }
    ensures rests { IsTrue (D.state device.old).told → Rests (D.state device.old) (D.state device.new) (D.leaves device.old) (D.leaves device.new) }
    ensures failed { IsErrOf result DeviceError.Failed → Rose (D.state device.old).disk_faults (D.state device.new).disk_faults }
    ensures fine { (IsErrOf result DeviceError.Failed → ⊥) → SameFaults (D.state device.old) (D.state device.new) }
    ensures frame { Frame (D.state device.old) (D.state device.new) }
    ensures names { SameNames (D.state device.old) (D.state device.new) }
{
    if page >= count {
        return Ok(None);
    }
    let bytes = read_part(alloc, device, page_place(size, page), size as usize)?;
    Ok(slots_of(alloc, bytes.as_slice(), size / 32)?)
}

fn append(to: &mut FirstSlots, more: &[Option<First>]) -> Result<(), OutOfMemory>
    ensures { OnOk result (to.new ≡ to.old ++ more.now) }
{
    for slot in more {
        to.push(*slot)?;
    }
    Ok(())
}

/// The slots of the directory that has these pages, if each of them is there and has just slots.
pub fn read_directory<D: Device>(
    alloc: Global,
    device: &mut D,
    size: u32,
    count: u32,
    directory: &[u32],
) -> Result<Option<FirstSlots>, DeviceError>
    requires block { IsBlockSize size }
    ensures value { IfOk result (λ o. IsTrue (D.state device.old).told → o ≡ directory_from size count (D.state device.old).holds [] directory.now) }
    ensures slots { IfOk result (λ o. IfSome o (λ s. AreFirsts (length directory.now * slots_in_page size) s)) }
    ensures bytes { IfOk result (λ o. IfSome o (λ s. IsTrue (D.state device.old).told → (k p : ℕ) → At directory.now k p → AreBytes (page_at size (D.state device.old).holds p))) }
    ensures rests { IsTrue (D.state device.old).told → Rests (D.state device.old) (D.state device.new) (D.leaves device.old) (D.leaves device.new) }
    ensures failed { IsErrOf result DeviceError.Failed → Rose (D.state device.old).disk_faults (D.state device.new).disk_faults }
    ensures fine { (IsErrOf result DeviceError.Failed → ⊥) → SameFaults (D.state device.old) (D.state device.new) }
    ensures frame { Frame (D.state device.old) (D.state device.new) }
    ensures names { SameNames (D.state device.old) (D.state device.new) }
{
    let mut slots = FirstSlots::new(alloc);
    for page in directory {
        let Some(more) = slots_at(alloc, device, size, count, *page)? else {
            return Ok(None);
        };
        append(&mut slots, more.as_slice())?;
    }
    Ok(Some(slots))
}
