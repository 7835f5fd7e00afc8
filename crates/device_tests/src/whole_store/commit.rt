//! The unselected image is written, and then selected.
ghost use Rattle.std.specs.Prelude.{◌≡◌, ◌≤◌, ◌<◌, ◌+◌, ◌^◌, not, IsTrue, is_ok, if◌then◌else◌, [], ◌∷◌, length, IfOk, OnOk, IsErrOf};
ghost use Rattle.kd_device.specs.Device.{Rose, Frame, SameFaults, SameNames, Only};
ghost use Rattle.kd_device.specs.Rest.{Rests};
ghost use Rattle.kd_records.specs.declared.content.Content.{Content};
ghost use Rattle.device_tests.specs.File.{Stands, place as place_of, image_size as image_size_of};
ghost use Rattle.kdcfile_layout.specs.Layout.{selector as selector_of};
ghost use Rattle.device_tests.specs.Opened.{identity_of, renewed};
ghost use Rattle.kd_records.specs.Identity.{IsIdentity};
ghost use Rattle.device_tests.specs.Commit.{other_place, spelled_root, image_write, committed, LeavesEither};

use crate::whole_store::image::{Image, Root};
use crate::whole_store::root::root_bytes;
use kd_base::OutOfMemory;
use kd_device::{Device, DeviceError};
use kdcfile_layout::{PageWrite, commit_pages};
use std::alloc::Global;

/// How many bytes an image of this file may have.
fn image_size(image: &Image) -> u64
    ensures value { result ≡ image_size_of (identity_of image.now) }
    ensures bound { result < 2 ^ 28 }
{
    let pgpool = image.root().pgpool as u64;
    8192 + pgpool * image.blksize() as u64
}

/// Where the unselected image is, in bytes from the beginning of the file.
fn unselected(image: &Image) -> u64
    ensures { result ≡ other_place image.now }
{
    if image.second() {
        8192
    } else {
        8192 + image_size(image)
    }
}

fn selector(second: bool) -> u8
    ensures { result ≡ selector_of second }
{
    if second { 1 } else { 0 }
}

/// The write of the unselected image: a root, and the records after it.
fn writes_of(
    alloc: Global,
    image: &Image,
    body: &[u8],
    root: &Root,
) -> Result<Vec<PageWrite>, OutOfMemory>
    ensures write { IfOk result (λ v. v.items ≡ image_write image.now body.now root.now ∷ []) }
    ensures length { IfOk result (λ v. length (spelled_root root.now) ≡ 64) }
{
    let mut bytes = root_bytes(alloc, root)?;
    bytes.append(body)?;
    let at = unselected(image);
    let mut writes = Vec::new(alloc);
    writes.push(PageWrite { at, bytes })?;
    Ok(writes)
}

/// Where the unselected image ends, at most.
fn unselected_end(image: &Image) -> u64
    ensures value { result ≡ other_place image.now + image_size_of (identity_of image.now) }
    ensures identity { IsIdentity (identity_of image.now) }
{
    let _ = image.root(); // its identity, for the proof
    unselected(image) + image_size(image)
}

/// Writes the records and the root of the unselected image, and then selects it. `Memory` comes before the first
/// write. After `Failed` the file is loaded again. The root may have another fingerprint than the file had.
pub fn commit_image<D: Device>(
    alloc: Global,
    device: &mut D,
    image: &mut Image,
    body: &[u8],
    root: &Root,
) -> Result<(), DeviceError>
    requires same_sizes { root.now.pgpool ≡ image.old.root.pgpool }
    requires inside { 64 + length body.now ≤ image_size_of (identity_of image.old) }
    requires stands { IsTrue (D.state device.old).told → (x : Content) × Stands (identity_of image.old) image.old.second x (D.state device.old).holds }
    requires would_stand { IsTrue (D.state device.old).told → (y : Content) × Stands (renewed image.old root.now) (not image.old.second) y (committed image.old body.now root.now (D.state device.old).holds) }
    requires at_rest { IsTrue (D.state device.old).told → Only (D.state device.old).holds (D.state device.old) (D.leaves device.old) }

    // At `Ok` the image is the other one with this root, and the file has it on the disk.
    ensures image { image.new ≡ (if is_ok result then record image.old { root = root.now; second = not image.old.second } else image.old) }
    ensures holds { OnOk result (IsTrue (D.state device.old).told → (D.state device.new).holds ≡ committed image.old body.now root.now (D.state device.old).holds) }
    ensures at_rest { OnOk result (IsTrue (D.state device.old).told → Only (D.state device.new).holds (D.state device.new) (D.leaves device.new)) }
    ensures sent { IsTrue (D.state device.old).told → (D.state device.new).sent ≡ (D.state device.old).sent }

    // A stop at any moment of the call leaves the old content or the new one.
    ensures any_moment { IsTrue (D.state device.old).told → LeavesEither image.old body.now root.now (D.state device.old) (D.state device.new) (D.leaves device.old) (D.leaves device.new) }

    // The bytes written are those of the records, 64 of the root and 1 of the selector.
    ensures put { OnOk result (IsTrue (D.state device.old).told → (D.state device.new).put ≡ (D.state device.old).put + length body.now + 65) }
    ensures put_most { IsTrue (D.state device.old).told → (D.state device.new).put ≤ (D.state device.old).put + length body.now + 65 }

    ensures failed { IsErrOf result DeviceError.Failed → Rose (D.state device.old).disk_faults (D.state device.new).disk_faults }
    ensures memory { IsErrOf result DeviceError.Memory → IsTrue (D.state device.old).told → Rests (D.state device.old) (D.state device.new) (D.leaves device.old) (D.leaves device.new) }
    ensures fine { (IsErrOf result DeviceError.Failed → ⊥) → SameFaults (D.state device.old) (D.state device.new) }
    ensures frame { Frame (D.state device.old) (D.state device.new) }
    ensures names { SameNames (D.state device.old) (D.state device.new) }
{
    let writes = writes_of(alloc, image, body, root)?;
    let byte = selector(!image.second());
    let end = unselected_end(image);
    commit_pages(device, writes.as_slice(), byte, end)?;
    image.turn(*root);
    Ok(())
}
