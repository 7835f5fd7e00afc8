//! A file is made, with no records.
ghost use Rattle.std.specs.Prelude.{◌≡◌, ◌≤◌, ◌<◌, ◌+◌, ◌-◌, ◌^◌, ◌++◌, ◌∷◌, [], List, ℕ, Bool, false, IsTrue, length, IfOk, OnOk, OnErr, IsErrOf};
ghost use Rattle.kd_device.specs.{Device.{State, Rose, Frame, SameFaults, SameNames, LeavesOnly, Only}, Rest.{Rests}};
ghost use Rattle.kd_records.specs.Identity.{IsIdentity};
ghost use Rattle.kdcfile_layout.specs.{Layout.{Stands, fresh, zeros}, Gates.{ShutOr}, Series.{together}, Synced.{IsSynced}};
ghost use Rattle.kdcfile_layout.specs.Fresh.{after_gate, numbers as numbers_below, in_part, fresh_file, fresh_layout, fresh_length, fresh_root, LeavesMade, made_with};

use crate::kdcfile_images::image::{Image, Root};
use crate::kdcfile_images::root::root_bytes;
use crate::page_pool::Pages;
use crate::spell::{add_zeros, zero_bytes};
use crate::{directory_pages, make_file};
use kd_base::OutOfMemory;
use kd_device::{Device, DeviceError};
use std::alloc::Global;

/// The zero bytes between the head and the root of image A.
const GAP: usize = 8179;

/// The bytes of a root with the zero bytes after it.
const ROOT_PART: usize = 8192;

/// How many zero bytes are written at once at most.
const PIECE: usize = 65_536;

/// Adds a root, and zero bytes up to the end of its part.
fn add_root(to: &mut Vec<u8>, root: &[u8]) -> Result<(), OutOfMemory>
    requires { length root.now ≤ 8192 }
    ensures { OnOk result (to.new.items ≡ to.old.items ++ in_part root.now) }
{
    to.extend_from_slice(root)?;
    add_zeros(to, ROOT_PART - root.len())
}

/// What is after the gate of a fresh file and before its pages.
fn front_bytes(alloc: Global, blksize: u32, root: &[u8], gap: usize) -> Result<Vec<u8>, OutOfMemory>
    requires root { length root.now ≤ 8192 }
    requires gap { gap ≤ 8192 }
    ensures { IfOk result (λ v. v.items ≡ after_gate blksize root.now gap) }
{
    let mut front = Vec::with_capacity(alloc, 12 + gap + 2 * ROOT_PART)?;
    front.extend_from_slice(b"UTMKDCF\x02")?;
    front.extend_from_slice(&blksize.to_be_bytes())?;
    add_zeros(&mut front, gap)?;
    add_root(&mut front, root)?;
    add_root(&mut front, root)?;
    Ok(front)
}

/// These first bytes and then so many zero bytes, in parts of which those of zero bytes are no longer than this buffer.
fn parts_of<'a>(
    alloc: Global,
    front: &'a [u8],
    buffer: &'a [u8],
    count: usize,
) -> Result<Vec<&'a [u8]>, OutOfMemory>
    requires buffer { buffer.now ≡ zeros (length buffer.now) }
    requires some { 0 < length buffer.now }
    ensures { IfOk result (λ v. together v.items ≡ front.now ++ zeros count) }
{
    let mut parts = Vec::new(alloc);
    parts.push(front)?;
    let mut left = count;
    while left > 0 {
        let (part, _) = buffer.split_at(left.min(buffer.len()));
        parts.push(part)?;
        left -= part.len();
    }
    Ok(parts)
}

/// Makes the file, which is empty: these bytes are after the gate, and then so many zero bytes. `Memory` comes before the
/// first write.
fn write_fresh<D: Device>(
    alloc: Global,
    device: &mut D,
    front: &[u8],
    count: usize,
) -> Result<(), DeviceError>
    requires few { length front.now + count < 2 ^ 62 }
    requires empty { IsTrue (D.state device.old).told → (D.state device.old).holds ≡ [] }
    requires at_rest { IsTrue (D.state device.old).told → Only (D.state device.old).holds (D.state device.old) (D.leaves device.old) }
    ensures sent { IsTrue (D.state device.old).told → (D.state device.new).sent ≡ (D.state device.old).sent }
    ensures put_most { IsTrue (D.state device.old).told → (D.state device.new).put ≤ (D.state device.old).put + (length front.now + count + 2) }
    ensures any_moment { IsTrue (D.state device.old).told → LeavesOnly (D.state device.old) (D.state device.new) (D.leaves device.old) (D.leaves device.new) (ShutOr (front.now ++ zeros count) (D.state device.old).sent) }
    ensures ok { OnOk result (IsTrue (D.state device.old).told → IsSynced (length front.now + count + 2) (75 ∷ front.now ++ zeros count) (D.state device.old) (D.state device.new) (D.leaves device.new)) }
    ensures failed { IsErrOf result DeviceError.Failed → Rose (D.state device.old).disk_faults (D.state device.new).disk_faults }
    ensures memory { IsErrOf result DeviceError.Memory → IsTrue (D.state device.old).told → Rests (D.state device.old) (D.state device.new) (D.leaves device.old) (D.leaves device.new) }
    ensures fine { (IsErrOf result DeviceError.Failed → ⊥) → SameFaults (D.state device.old) (D.state device.new) }
    ensures frame { Frame (D.state device.old) (D.state device.new) }
    ensures names { SameNames (D.state device.old) (D.state device.new) }
{
    let buffer = zero_bytes(alloc, PIECE)?;
    let parts = parts_of(alloc, front, buffer.as_slice(), count)?;
    let len = (front.len() + count) as u64;
    device.reserve(parts.len() as u64 + 5, len + 2, len + 1)?;
    make_file(device, parts.as_slice())?;
    Ok(())
}

/// The page numbers from 0 on, so many.
fn numbers(alloc: Global, count: u32) -> Result<Pages, OutOfMemory>
    ensures { IfOk result (λ p. p ≡ numbers_below count) }
{
    let mut pages = Pages::new(alloc);
    for n in 0..count {
        pages.push(n)?;
    }
    Ok(pages)
}

/// The root of both images of a fresh file.
fn new_root(
    alloc: Global,
    blksize: u32,
    pgpool: u32,
    fingerprint: &[u8; 32],
) -> Result<Root, OutOfMemory>
    requires { IsIdentity (made_with blksize pgpool fingerprint.now) }
    ensures { IfOk result (λ r. r ≡ fresh_root (made_with blksize pgpool fingerprint.now)) }
{
    Ok(Root {
        fingerprint: *fingerprint,
        clock: 0,
        next_job: 1,
        pgpool,
        directory: numbers(alloc, directory_pages(blksize, pgpool))?,
        records: 0,
    })
}

/// A fresh file to be written: its image, what is after the gate and before the pages, and how many zero bytes these are.
#[derive(Drop)]
struct Draft {
    image: Image,
    front: Vec<u8>,
    pages: usize,
}

fn make(
    alloc: Global,
    blksize: u32,
    pgpool: u32,
    fingerprint: &[u8; 32],
) -> Result<Draft, OutOfMemory>
    requires { IsIdentity (made_with blksize pgpool fingerprint.now) }
    ensures image { IfOk result (λ m. m.image ≡ record { blksize = blksize; root = fresh_root (made_with blksize pgpool fingerprint.now); second = false }) }
    ensures bytes { IfOk result (λ m. 75 ∷ m.front.items ++ zeros m.pages ≡ fresh_file (made_with blksize pgpool fingerprint.now)) }
{
    let root = new_root(alloc, blksize, pgpool, fingerprint)?;
    let bytes = root_bytes(alloc, &root)?;
    let pages = directory_pages(blksize, pgpool) as usize * blksize as usize;
    let front = front_bytes(alloc, blksize, bytes.as_slice(), GAP)?;
    Ok(Draft {
        image: Image::new(blksize, root, false),
        front,
        pages,
    })
}

/// Makes the file, which is empty, with no records in either image: blocks of `blksize` bytes, and `pgpool` pages for
/// records. A stop leaves no image, or that one. The pages go in writes of 65,536 bytes at most, from one buffer, and
/// `Memory` comes before the first write.
pub fn create<D: Device>(
    alloc: Global,
    device: &mut D,
    blksize: u32,
    pgpool: u32,
    fingerprint: &[u8; 32],
) -> Result<Image, DeviceError>
    requires identity { IsIdentity (made_with blksize pgpool fingerprint.now) }
    requires empty { IsTrue (D.state device.old).told → (D.state device.old).holds ≡ [] }
    requires at_rest { IsTrue (D.state device.old).told → Only (D.state device.old).holds (D.state device.old) (D.leaves device.old) }
    ensures image { IfOk result (λ i. i ≡ record { blksize = blksize; root = fresh_root (made_with blksize pgpool fingerprint.now); second = false }) }
    ensures stands { OnOk result (IsTrue (D.state device.old).told → Stands (made_with blksize pgpool fingerprint.now) false fresh (fresh_layout (made_with blksize pgpool fingerprint.now)) (D.state device.new).holds) }

    // Both roots are there, and every byte that is not theirs, the gate's or the mark's is zero.
    ensures holds { OnOk result (IsTrue (D.state device.old).told → (D.state device.new).holds ≡ fresh_file (made_with blksize pgpool fingerprint.now)) }
    ensures length { OnOk result (IsTrue (D.state device.old).told → length (D.state device.new).holds ≡ fresh_length (made_with blksize pgpool fingerprint.now)) }
    ensures at_rest { OnOk result (IsTrue (D.state device.old).told → Only (D.state device.new).holds (D.state device.new) (D.leaves device.new)) }
    ensures sent { IsTrue (D.state device.old).told → (D.state device.new).sent ≡ (D.state device.old).sent }
    ensures put { OnOk result (IsTrue (D.state device.old).told → (D.state device.new).put ≡ (D.state device.old).put + fresh_length (made_with blksize pgpool fingerprint.now) + 1) }
    ensures put_most { IsTrue (D.state device.old).told → (D.state device.new).put ≤ (D.state device.old).put + fresh_length (made_with blksize pgpool fingerprint.now) + 1 }
    ensures any_moment { IsTrue (D.state device.old).told → LeavesMade (made_with blksize pgpool fingerprint.now) (D.state device.old) (D.state device.new) (D.leaves device.old) (D.leaves device.new) }
    ensures failed { IsErrOf result DeviceError.Failed → Rose (D.state device.old).disk_faults (D.state device.new).disk_faults }
    ensures memory { IsErrOf result DeviceError.Memory → IsTrue (D.state device.old).told → Rests (D.state device.old) (D.state device.new) (D.leaves device.old) (D.leaves device.new) }
    ensures fine { (IsErrOf result DeviceError.Failed → ⊥) → SameFaults (D.state device.old) (D.state device.new) }
    ensures frame { Frame (D.state device.old) (D.state device.new) }
    ensures names { SameNames (D.state device.old) (D.state device.new) }
{
    let draft = make(alloc, blksize, pgpool, fingerprint)?;
    write_fresh(alloc, device, draft.front.as_slice(), draft.pages)?;
    Ok(draft.image)
}
