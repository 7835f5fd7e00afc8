//! A file is made, with no records.
ghost use Rattle.std.specs.Prelude.{◌≡◌, ◌≤◌, ◌<◌, ◌+◌, ◌-◌, ◌*◌, ◌^◌, ◌++◌, ◌∷◌, [], List, ℕ, Bool, false, IsTrue, length, IfOk, OnOk, OnErr, IsErrOf};
ghost use Rattle.kd_device.specs.Device.{State, Rose, Frame, SameFaults, SameNames, LeavesOnly, Only};
ghost use Rattle.kd_device.specs.Rest.{Rests};
ghost use Rattle.kd_records.specs.Identity.{Identity, IsIdentity};
ghost use Rattle.device_tests.specs.File.{Stands, mark, image_size};
ghost use Rattle.kdcfile_layout.specs.Layout.{fresh, zeros};
ghost use Rattle.device_tests.specs.Commit.{spelled_root};
ghost use Rattle.kdcfile_layout.specs.Fresh.{made_with};
ghost use Rattle.device_tests.specs.Fresh.{in_image, fresh_rest, fresh_file, fresh_root, LeavesMade, two_images};

use crate::whole_store::image::{Image, Root};
use crate::whole_store::root::root_bytes;
use kd_base::OutOfMemory;
use kd_device::{Device, DeviceError};
use kdcfile_layout::make_file;
use std::alloc::Global;

/// The zero bytes between the head and image A.
const GAP: usize = 8175;

/// Adds so many zero bytes.
fn add_zeros(to: &mut Vec<u8>, count: usize) -> Result<(), OutOfMemory>
    requires { count < 2 ^ 28 }
    ensures { OnOk result (to.new.items ≡ to.old.items ++ zeros count) }
{
    to.resize(to.len() + count, 0)?;
    Ok(())
}

/// Adds an image of these first bytes and zero bytes.
fn add_image(to: &mut Vec<u8>, root: &[u8], left: usize) -> Result<(), OutOfMemory>
    requires { left < 2 ^ 28 }
    ensures { OnOk result (to.new.items ≡ to.old.items ++ (root.now ++ zeros left)) }
{
    to.extend_from_slice(root)?;
    add_zeros(to, left)
}

/// What is after the gate of a fresh file.
fn rest_bytes(
    alloc: Global,
    blksize: u32,
    pgpool: u32,
    root: &[u8],
    gap: usize,
    left: usize,
) -> Result<Vec<u8>, OutOfMemory>
    requires root { length root.now ≡ 64 }
    requires gap { gap < 2 ^ 16 }
    requires left { left < 2 ^ 28 }
    ensures { IfOk result (λ v. (fingerprint : List ℕ) → v.items ≡ mark (record { blksize = blksize; pages = pgpool; fingerprint = fingerprint }) ++ two_images root.now gap left) }
{
    let mut rest = Vec::with_capacity(alloc, 144 + gap + 2 * left)?;
    rest.extend_from_slice(b"UTMKDCF\x01")?;
    rest.extend_from_slice(&blksize.to_be_bytes())?;
    rest.extend_from_slice(&pgpool.to_be_bytes())?;
    add_zeros(&mut rest, gap)?;
    add_image(&mut rest, root, left)?;
    add_image(&mut rest, root, left)?;
    Ok(rest)
}

/// A fresh file in memory: its image, and what is after the gate.
#[derive(Drop)]
struct Draft {
    image: Image,
    rest: Vec<u8>,
}

fn make(
    alloc: Global,
    blksize: u32,
    pgpool: u32,
    fingerprint: &[u8; 32],
) -> Result<Draft, OutOfMemory>
    requires { IsIdentity (record { blksize = blksize; pages = pgpool; fingerprint = fingerprint.now }) }
    ensures image { IfOk result (λ m. m.image ≡ record { blksize = blksize; root = fresh_root (record { blksize = blksize; pages = pgpool; fingerprint = fingerprint.now }); second = false }) }
    ensures rest { IfOk result (λ m. m.rest.items ≡ fresh_rest (record { blksize = blksize; pages = pgpool; fingerprint = fingerprint.now })) }
{
    let root = Root {
        fingerprint: *fingerprint,
        clock: 0,
        next_job: 1,
        pgpool,
        records: 0,
    };
    let bytes = root_bytes(alloc, &root)?;
    let left = 8128 + pgpool as usize * blksize as usize;
    let rest = rest_bytes(alloc, blksize, pgpool, bytes.as_slice(), GAP, left)?;
    Ok(Draft {
        image: Image::new(blksize, root, false),
        rest,
    })
}

/// Makes the file, with no records in either image. A stop leaves no image, or that one. `Memory` comes before the
/// first write.
pub fn create<D: Device>(
    alloc: Global,
    device: &mut D,
    blksize: u32,
    pgpool: u32,
    fingerprint: &[u8; 32],
) -> Result<Image, DeviceError>
    requires identity { IsIdentity (made_with blksize pgpool fingerprint.now) }
    requires empty { IsTrue (D.state device.old).told → (D.state device.old).holds ≡ [] }
    requires at_rest { IsTrue (D.state device.old).told → Only (D.state device.old).holds (D.state device.old) (D.leaves device.old) }
    ensures image { IfOk result (λ i. i ≡ record { blksize = blksize; root = fresh_root (made_with blksize pgpool fingerprint.now); second = false }) }
    ensures stands { OnOk result (IsTrue (D.state device.old).told → Stands (made_with blksize pgpool fingerprint.now) false fresh (D.state device.new).holds) }

    // Both images are there, and every byte that is not theirs, the gate's or the mark's is zero.
    ensures holds { OnOk result (IsTrue (D.state device.old).told → (D.state device.new).holds ≡ fresh_file (made_with blksize pgpool fingerprint.now)) }
    ensures length { OnOk result (IsTrue (D.state device.old).told → length (D.state device.new).holds ≡ 8192 + 2 * image_size (made_with blksize pgpool fingerprint.now)) }
    ensures at_rest { OnOk result (IsTrue (D.state device.old).told → Only (D.state device.new).holds (D.state device.new) (D.leaves device.new)) }
    ensures sent { IsTrue (D.state device.old).told → (D.state device.new).sent ≡ (D.state device.old).sent }
    ensures put { OnOk result (IsTrue (D.state device.old).told → (D.state device.new).put ≡ (D.state device.old).put + length (D.state device.new).holds + 1) }
    ensures put_most { IsTrue (D.state device.old).told → (D.state device.new).put ≤ (D.state device.old).put + (8192 + 2 * image_size (made_with blksize pgpool fingerprint.now)) + 1 }
    ensures any_moment { IsTrue (D.state device.old).told → LeavesMade (made_with blksize pgpool fingerprint.now) (D.state device.old) (D.state device.new) (D.leaves device.old) (D.leaves device.new) }
    ensures failed { IsErrOf result DeviceError.Failed → Rose (D.state device.old).disk_faults (D.state device.new).disk_faults }
    ensures memory { IsErrOf result DeviceError.Memory → IsTrue (D.state device.old).told → Rests (D.state device.old) (D.state device.new) (D.leaves device.old) (D.leaves device.new) }
    ensures fine { (IsErrOf result DeviceError.Failed → ⊥) → SameFaults (D.state device.old) (D.state device.new) }
    ensures frame { Frame (D.state device.old) (D.state device.new) }
    ensures names { SameNames (D.state device.old) (D.state device.new) }
{
    let draft = make(alloc, blksize, pgpool, fingerprint)?;
    let len = draft.rest.len() as u64;
    device.reserve(6, len + 2, len + 1)?;
    make_file(device, &[draft.rest.as_slice()])?;
    Ok(draft.image)
}
