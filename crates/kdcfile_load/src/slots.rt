//! The slots of the selected image, with the records that they have.
ghost use Rattle.std.specs.Prelude.{◌≡◌, ◌≤◌, ◌*◌, List, ℕ, IsTrue, length, IfOk, IfSome, IfNone, IsErrOf};
ghost use Rattle.kd_device.specs.{Device.{Rose, Frame, SameFaults, SameNames}, Rest.{Rests}};
ghost use Rattle.kdcfile_layout.specs.Layout.{IsNoImage, slots_in_page};
ghost use Rattle.kdcfile_load.specs.{Openings.{IsOpening, Opens, directory_length}, Reads.{IsGathering}, Slots.{ReadsSlots}};

use crate::directory::read_directory;
use crate::opening::Opening;
use crate::records::{Gathering, read_records};
use kd_device::{Device, DeviceError};
use kdcfile_layout::page_count;
use std::alloc::Global;

/// The slots of the image, and the records that they have, if all of them are there.
pub fn read_slots<D: Device>(
    alloc: Global,
    device: &mut D,
    opening: &Opening,
) -> Result<Option<Gathering>, DeviceError>
    requires opening { IsOpening opening.now }
    ensures gathered { IfOk result (λ o. IfSome o (λ g. IsGathering opening.now.head.blksize (directory_length opening.now * slots_in_page opening.now.head.blksize) g)) }
    ensures reads { IfOk result (λ o. IfSome o (λ g. IsTrue (D.state device.old).told → ReadsSlots (D.state device.old).holds opening.now g)) }
    ensures none { IfOk result (λ o. IfNone o (IsTrue (D.state device.old).told → Opens (D.state device.old).holds opening.now → IsNoImage (D.state device.old).holds)) }
    ensures rests { IsTrue (D.state device.old).told → Rests (D.state device.old) (D.state device.new) (D.leaves device.old) (D.leaves device.new) }
    ensures failed { IsErrOf result DeviceError.Failed → Rose (D.state device.old).disk_faults (D.state device.new).disk_faults }
    ensures fine { (IsErrOf result DeviceError.Failed → ⊥) → SameFaults (D.state device.old) (D.state device.new) }
    ensures frame { Frame (D.state device.old) (D.state device.new) }
    ensures names { SameNames (D.state device.old) (D.state device.new) }
{
    let size = opening.head.blksize;
    let count = page_count(size, opening.root.pgpool);
    let Some(slots) = read_directory(alloc, device, size, count, opening.directory.as_slice())?
    else {
        return Ok(None);
    };
    read_records(alloc, device, size, count, slots.as_slice())
}
