//! Loading the image that a file has selected.
ghost use Rattle.std.specs.Prelude.{◌≡◌, ◌≤◌, List, ℕ, Some, None, IsTrue, length, take, drop, IfOk, OnOk, IsErrOf};
ghost use Rattle.std.specs.Option.{option_map};
ghost use Rattle.kd_device.specs.Device.{State, Rose, Frame, SameFaults, SameNames, Only};
ghost use Rattle.kd_device.specs.Rest.{Rests};
ghost use Rattle.device_tests.specs.File.{Stands, IsNoImage, OneMeaning};
ghost use Rattle.device_tests.specs.Opened.{identity_of, content_in};
ghost use Rattle.kdcfile_layout.specs.Fields.{AreBytes};
ghost use Rattle.device_tests.specs.Reading.{HasSizes, image_of};

use crate::whole_store::head::{FRONT_LEN, Head, head_of};
use crate::whole_store::image::{Image, Loaded};
use crate::whole_store::read_root::{ROOT_LEN, root_of};
use crate::whole_store::record::records_of;
use kd_device::{Device, DeviceError};
use kdcfile_layout::{bring_to_rest, read_part};
use kdcfile_store::LoadError;
use std::alloc::Global;

// The image that these bytes begin with, in a file of that head.
fn image_of(alloc: Global, head: Head, bytes: &[u8]) -> Result<Option<Loaded>, DeviceError>
    requires { HasSizes head.blksize head.pages }
    ensures value { IfOk result (λ found. option_map (λ l. (l.image, l.records)) found ≡ image_of head bytes.now) }
    ensures bytes { AreBytes bytes.now }
    ensures read { IsErrOf result DeviceError.Failed → ⊥ }
{
    let Some(root) = root_of(bytes, head.pages) else {
        return Ok(None);
    };
    let (_, behind) = bytes.split_at(ROOT_LEN);
    let Some(records) = records_of(alloc, root.records, behind)? else {
        return Ok(None);
    };
    Ok(Some(Loaded {
        image: Image::new(head.blksize, root, head.second),
        records,
    }))
}

/// The image that the file has selected, with its records. After it, and after `NotKdcfile`, the file is on the disk
/// as it was read.
pub fn load<D: Device>(alloc: Global, device: &mut D) -> Result<Loaded, LoadError>
    // What is loaded is what the bytes stand for.
    ensures stands { IfOk result (λ l. IsTrue (D.state device.old).told → Stands (identity_of l.image) l.image.second (content_in l.image.root l.records) (D.state device.old).holds) }
    // Bytes are refused only where they stand for no image.
    ensures none { IsErrOf result LoadError.NotKdcfile → IsTrue (D.state device.old).told → IsNoImage (D.state device.old).holds }
    ensures at_rest { OnOk result (IsTrue (D.state device.old).told → Only (D.state device.new).holds (D.state device.new) (D.leaves device.new)) }
    ensures at_rest_none { IsErrOf result LoadError.NotKdcfile → IsTrue (D.state device.old).told → Only (D.state device.new).holds (D.state device.new) (D.leaves device.new) }
    ensures rests { IsTrue (D.state device.old).told → Rests (D.state device.old) (D.state device.new) (D.leaves device.old) (D.leaves device.new) }
    ensures failed { IsErrOf result LoadError.Failed → Rose (D.state device.old).disk_faults (D.state device.new).disk_faults }
    ensures fine { (IsErrOf result LoadError.Failed → ⊥) → SameFaults (D.state device.old) (D.state device.new) }
    ensures frame { Frame (D.state device.old) (D.state device.new) }
    ensures names { SameNames (D.state device.old) (D.state device.new) }
{
    bring_to_rest(device)?;
    let front = read_part(alloc, device, 0, FRONT_LEN)?;
    let Some(head) = head_of(front.as_slice()) else {
        return Err(LoadError::NotKdcfile);
    };
    let bytes = read_part(alloc, device, head.place(), head.image_size())?;
    match image_of(alloc, head, bytes.as_slice())? {
        Some(loaded) => Ok(loaded),
        None => Err(LoadError::NotKdcfile),
    }
}

/// The law of files: their bytes stand for one content at most, made with one identity.
pub fn one_meaning()
    ensures { OneMeaning }
{}
