//! Loading the image that a file has selected.
ghost use Rattle.std.specs.Prelude.{◌≡◌, ◌≤◌, List, ℕ, IsTrue, IfOk, IfSome, IfNone, OnOk, IsErrOf};
ghost use Rattle.kd_device.specs.{Device.{Rose, Frame, SameFaults, SameNames, Only}, Rest.{Rests}};
ghost use Rattle.kdcfile_layout.specs.{Layout.{Stands, IsNoImage}, Stored.{IsStored}};
ghost use Rattle.kdcfile_layout.specs.Opened.{identity_of, layout_in};

use crate::checking::check_image;
use crate::fault::LoadError;
use crate::opening::read_opening;
use crate::slots::read_slots;
use kd_device::{Device, DeviceError};
use kd_records::Content;
use kdcfile_layout::kdcfile_images::Image;
use kdcfile_layout::page_pool::Pool;
use kdcfile_layout::{Slots, bring_to_rest};
use std::alloc::Global;

/// What a load gives: the selected image, the slots of its directory, its content, and the pool with the pages that it
/// names used.
#[derive(Drop)]
pub struct Loaded {
    pub image: Image,
    pub slots: Slots,
    pub content: Content,
    pub pool: Pool,
}

// The image that the file has selected, if there is one.
fn read_image<D: Device>(alloc: Global, device: &mut D) -> Result<Option<Loaded>, DeviceError>
    ensures stored { IfOk result (λ o. IfSome o (λ l. IsStored (identity_of l.image) l.content (layout_in l.image.root l.slots) l.pool)) }
    ensures stands { IfOk result (λ o. IfSome o (λ l. IsTrue (D.state device.old).told → Stands (identity_of l.image) l.image.second l.content (layout_in l.image.root l.slots) (D.state device.old).holds)) }
    ensures none { IfOk result (λ o. IfNone o (IsTrue (D.state device.old).told → IsNoImage (D.state device.old).holds)) }
    ensures rests { IsTrue (D.state device.old).told → Rests (D.state device.old) (D.state device.new) (D.leaves device.old) (D.leaves device.new) }
    ensures failed { IsErrOf result DeviceError.Failed → Rose (D.state device.old).disk_faults (D.state device.new).disk_faults }
    ensures fine { (IsErrOf result DeviceError.Failed → ⊥) → SameFaults (D.state device.old) (D.state device.new) }
    ensures frame { Frame (D.state device.old) (D.state device.new) }
    ensures names { SameNames (D.state device.old) (D.state device.new) }
{
    let Some(opening) = read_opening(alloc, device)? else {
        return Ok(None);
    };
    let Some(found) = read_slots(alloc, device, &opening)? else {
        return Ok(None);
    };
    Ok(check_image(alloc, opening, found)?)
}

/// The image that the file has selected, with its records. After it, and after `NotKdcfile`, the file is on the disk
/// as it was read.
pub fn load<D: Device>(alloc: Global, device: &mut D) -> Result<Loaded, LoadError>
    ensures stored { IfOk result (λ l. IsStored (identity_of l.image) l.content (layout_in l.image.root l.slots) l.pool) }
    // What is loaded is what the bytes stand for.
    ensures stands { IfOk result (λ l. IsTrue (D.state device.old).told → Stands (identity_of l.image) l.image.second l.content (layout_in l.image.root l.slots) (D.state device.old).holds) }
    // Bytes are refused only where they stand for no image.
    ensures none { IsErrOf result LoadError.NotKdcfile → IsTrue (D.state device.old).told → IsNoImage (D.state device.old).holds }
    ensures at_rest { OnOk result (IsTrue (D.state device.old).told → Only (D.state device.new).holds (D.state device.new) (D.leaves device.new)) }
    ensures at_rest_none { IsErrOf result LoadError.NotKdcfile → IsTrue (D.state device.old).told → Only (D.state device.new).holds (D.state device.new) (D.leaves device.new) }
    ensures rests { IsTrue (D.state device.old).told → Rests (D.state device.old) (D.state device.new) (D.leaves device.old) (D.leaves device.new) }
    ensures failed { IsErrOf result LoadError.Failed → Rose (D.state device.old).disk_faults (D.state device.new).disk_faults }
    ensures fine { (IsErrOf result LoadError.Failed → ⊥) → SameFaults (D.state device.old) (D.state device.new) }
    ensures frame { Frame (D.state device.old) (D.state device.new) }
    ensures names { SameNames (D.state device.old) (D.state device.new) }
{
    bring_to_rest(device)?;
    match read_image(alloc, device)? {
        Some(loaded) => Ok(loaded),
        None => Err(LoadError::NotKdcfile),
    }
}
