//! The beginning of a file: its head, and the root of the selected image.
ghost use Rattle.std.specs.Prelude.{◌≡◌, ◌≤◌, List, ℕ, IsTrue, length, IfOk, IfSome, IfNone, IsErrOf};
ghost use Rattle.kd_device.specs.{Device.{Rose, Frame, SameFaults, SameNames}, Rest.{Rests}};
ghost use Rattle.kd_records.specs.Charge.{IsBlockSize};
ghost use Rattle.kdcfile_layout.specs.{Fields.{AreBytes}, Layout.{IsNoImage, page_count}};
ghost use Rattle.kdcfile_layout.specs.{Reading.{head_of, root_of, numbers_of}, Reads.{front_in, root_in, numbers_in}};
ghost use Rattle.kdcfile_load.specs.Openings.{IsRoot, IsOpening, Opens};

use kd_device::{Device, DeviceError};
use kdcfile_layout::kdcfile_read::{
    FRONT_LEN, Head, ROOT_LEN, RootFields, head_of, numbers_of, root_of,
};
use kdcfile_layout::page_pool::Pages;
use kdcfile_layout::{directory_pages, read_part};
use std::alloc::Global;

/// What the beginning of a file says: its head, the root of the selected image, and the numbers of the directory's
/// pages.
#[derive(Drop)]
pub struct Opening {
    pub head: Head,
    pub root: RootFields,
    pub directory: Pages,
}

fn read_head<D: Device>(alloc: Global, device: &mut D) -> Result<Option<Head>, DeviceError>
    ensures value { IfOk result (λ o. IsTrue (D.state device.old).told → o ≡ head_of (front_in (D.state device.old).holds)) }
    ensures block { IfOk result (λ o. IfSome o (λ h. IsBlockSize h.blksize)) }
    ensures bytes { IfOk result (λ o. IsTrue (D.state device.old).told → AreBytes (front_in (D.state device.old).holds)) }
    ensures rests { IsTrue (D.state device.old).told → Rests (D.state device.old) (D.state device.new) (D.leaves device.old) (D.leaves device.new) }
    ensures failed { IsErrOf result DeviceError.Failed → Rose (D.state device.old).disk_faults (D.state device.new).disk_faults }
    ensures fine { (IsErrOf result DeviceError.Failed → ⊥) → SameFaults (D.state device.old) (D.state device.new) }
    ensures frame { Frame (D.state device.old) (D.state device.new) }
    ensures names { SameNames (D.state device.old) (D.state device.new) }
{
    let front = read_part(alloc, device, 0, FRONT_LEN)?;
    Ok(head_of(front.as_slice()))
}

fn read_root<D: Device>(
    alloc: Global,
    device: &mut D,
    head: Head,
) -> Result<Option<RootFields>, DeviceError>
    requires block { IsBlockSize head.blksize }
    ensures value { IfOk result (λ o. IsTrue (D.state device.old).told → o ≡ root_of head.blksize (root_in head.second (D.state device.old).holds)) }
    ensures root { IfOk result (λ o. IfSome o (λ r. IsRoot r)) }
    ensures bytes { IfOk result (λ o. IsTrue (D.state device.old).told → AreBytes (root_in head.second (D.state device.old).holds)) }
    ensures rests { IsTrue (D.state device.old).told → Rests (D.state device.old) (D.state device.new) (D.leaves device.old) (D.leaves device.new) }
    ensures failed { IsErrOf result DeviceError.Failed → Rose (D.state device.old).disk_faults (D.state device.new).disk_faults }
    ensures fine { (IsErrOf result DeviceError.Failed → ⊥) → SameFaults (D.state device.old) (D.state device.new) }
    ensures frame { Frame (D.state device.old) (D.state device.new) }
    ensures names { SameNames (D.state device.old) (D.state device.new) }
{
    let bytes = read_part(alloc, device, head.root_place(), ROOT_LEN)?;
    Ok(root_of(bytes.as_slice(), head.blksize))
}

// The numbers of so many directory pages.
fn read_numbers<D: Device>(
    alloc: Global,
    device: &mut D,
    head: Head,
    count: u32,
) -> Result<Option<Pages>, DeviceError>
    requires few { count ≤ 32768 }
    ensures value { IfOk result (λ o. IsTrue (D.state device.old).told → o ≡ numbers_of count (numbers_in count head.second (D.state device.old).holds)) }
    ensures number { IfOk result (λ o. IfSome o (λ p. length p ≡ count)) }
    ensures bytes { IfOk result (λ o. IsTrue (D.state device.old).told → AreBytes (numbers_in count head.second (D.state device.old).holds)) }
    ensures rests { IsTrue (D.state device.old).told → Rests (D.state device.old) (D.state device.new) (D.leaves device.old) (D.leaves device.new) }
    ensures failed { IsErrOf result DeviceError.Failed → Rose (D.state device.old).disk_faults (D.state device.new).disk_faults }
    ensures fine { (IsErrOf result DeviceError.Failed → ⊥) → SameFaults (D.state device.old) (D.state device.new) }
    ensures frame { Frame (D.state device.old) (D.state device.new) }
    ensures names { SameNames (D.state device.old) (D.state device.new) }
{
    let bytes = read_part(
        alloc,
        device,
        head.root_place() + ROOT_LEN as u64,
        4 * count as usize,
    )?;
    Ok(numbers_of(alloc, bytes.as_slice(), count)?)
}

/// The beginning of the file, if there is one.
pub fn read_opening<D: Device>(
    alloc: Global,
    device: &mut D,
) -> Result<Option<Opening>, DeviceError>
    ensures opening { IfOk result (λ o. IfSome o (λ p. IsOpening p)) }
    ensures opens { IfOk result (λ o. IfSome o (λ p. IsTrue (D.state device.old).told → Opens (D.state device.old).holds p)) }
    ensures none { IfOk result (λ o. IfNone o (IsTrue (D.state device.old).told → IsNoImage (D.state device.old).holds)) }
    ensures rests { IsTrue (D.state device.old).told → Rests (D.state device.old) (D.state device.new) (D.leaves device.old) (D.leaves device.new) }
    ensures failed { IsErrOf result DeviceError.Failed → Rose (D.state device.old).disk_faults (D.state device.new).disk_faults }
    ensures fine { (IsErrOf result DeviceError.Failed → ⊥) → SameFaults (D.state device.old) (D.state device.new) }
    ensures frame { Frame (D.state device.old) (D.state device.new) }
    ensures names { SameNames (D.state device.old) (D.state device.new) }
{
    let Some(head) = read_head(alloc, device)? else {
        return Ok(None);
    };
    let Some(root) = read_root(alloc, device, head)? else {
        return Ok(None);
    };
    let count = directory_pages(head.blksize, root.pgpool);
    let Some(directory) = read_numbers(alloc, device, head, count)? else {
        return Ok(None);
    };
    Ok(Some(Opening {
        head,
        root,
        directory,
    }))
}
