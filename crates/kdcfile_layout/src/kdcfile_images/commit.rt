//! Pages and the root of the unselected image are written, and then that image is selected.
ghost use Rattle.std.specs.Prelude.{◌≡◌, ◌≤◌, ◌<◌, ◌+◌, ◌*◌, ◌^◌, not, IsTrue, is_ok, if◌then◌else◌, length, IfOk, OnOk, IsErrOf};
ghost use Rattle.kd_device.specs.{Device.{Rose, Frame, SameFaults, SameNames, Only}, Rest.{Rests}};
ghost use Rattle.kd_records.specs.declared.content.Content.{Content};
ghost use Rattle.kdcfile_layout.specs.{Layout.{Layout, Stands, directory_pages, page_count as page_count_of, root_place as root_place_of, selector as selector_of}, Writes.{total}};
ghost use Rattle.kdcfile_layout.specs.{Opened.{IsOpened, identity_of, renewed}, Commit.{ArePages, AreStaged, IsApartFrom, WouldBe, committed, LeavesEither}};

use crate::kdcfile_images::image::{Image, Root};
use crate::kdcfile_images::root::root_bytes;
use crate::{PageWrite, commit_pages, joined, page_count};
use kd_base::OutOfMemory;
use kd_device::{Device, DeviceError};
use std::alloc::Global;

const SELECTOR_A: u8 = 0;

const SELECTOR_B: u8 = 1;

fn selector(second: bool) -> u8
    ensures { result ≡ selector_of second }
{
    if second { SELECTOR_B } else { SELECTOR_A }
}

/// Where the root of image A or B is, in bytes from the beginning of the file.
fn root_place(second: bool) -> u64
    ensures { result ≡ root_place_of second }
{
    if second { 16_384 } else { 8192 }
}

/// Where the last page ends that there is once this root is in the file.
fn file_end(image: &Image, root: &Root) -> u64
    requires { root.now.pgpool ≤ 30000 }
    ensures value { result ≡ 24576 + page_count_of image.now.blksize root.now.pgpool * image.now.blksize }
    ensures opened { IsOpened image.now }
{
    let pages = page_count(image.blksize(), root.pgpool);
    24_576 + u64::from(pages) * u64::from(image.blksize())
}

/// The pages, joined where they are side by side, and then the root of the unselected image.
fn writes_of(
    alloc: Global,
    image: &Image,
    pages: Vec<PageWrite>,
    root: &Root,
) -> Result<Vec<PageWrite>, OutOfMemory>
    requires { length root.now.directory < 2 ^ 32 }
    ensures { IfOk result (λ v. AreStaged image.now pages.items root.now v.items) }
{
    let mut writes = joined(alloc, pages)?;
    writes.push(PageWrite {
        at: root_place(!image.second()),
        bytes: root_bytes(alloc, root)?,
    })?;
    Ok(writes)
}

/// Writes pages that the selected image does not name and the root of the unselected image, and syncs; then writes the
/// selector, and syncs. A write that ends where the next one of the list begins is one with it: so whole pages that are
/// side by side go in one write, and a page of which only the front is written ends its own. `Memory` comes before the
/// first write. After `Failed` the file is loaded again. The root may have another fingerprint and a greater PGPOOL than
/// the file had.
pub fn commit_image<D: Device>(
    alloc: Global,
    device: &mut D,
    image: &mut Image,
    pages: Vec<PageWrite>,
    root: Root,
) -> Result<(), DeviceError>
    requires pgpool { image.old.root.pgpool ≤ root.pgpool }
    requires most { root.pgpool ≤ 30000 }
    requires fingerprint { length root.fingerprint ≡ 32 }
    requires directory { length root.directory ≡ directory_pages image.old.blksize root.pgpool }
    requires pages { ArePages image.old.blksize root.pgpool pages.items }
    requires few { length pages.items < 2 ^ 32 }
    requires apart { IsTrue (D.state device.old).told → (x : Content) × (l : Layout) × IsApartFrom image.old x l pages.items (D.state device.old).holds }
    requires would_be { IsTrue (D.state device.old).told → (y : Content) × (m : Layout) × WouldBe image.old pages.items root y m (D.state device.old).holds }
    requires at_rest { IsTrue (D.state device.old).told → Only (D.state device.old).holds (D.state device.old) (D.leaves device.old) }

    // At `Ok` the image is the other one with this root, and the file has it on the disk.
    ensures image { image.new ≡ (if is_ok result then record image.old { root = root; second = not image.old.second } else image.old) }
    ensures holds { OnOk result (IsTrue (D.state device.old).told → (D.state device.new).holds ≡ committed image.old pages.items root (D.state device.old).holds) }
    ensures stands { OnOk result (IsTrue (D.state device.old).told → (y : Content) (m : Layout) → WouldBe image.old pages.items root y m (D.state device.old).holds → Stands (renewed image.old root) (not image.old.second) y m (D.state device.new).holds) }
    ensures at_rest { OnOk result (IsTrue (D.state device.old).told → Only (D.state device.new).holds (D.state device.new) (D.leaves device.new)) }
    ensures sent { IsTrue (D.state device.old).told → (D.state device.new).sent ≡ (D.state device.old).sent }

    // A stop at any moment of the call leaves the old content or the new one.
    ensures any_moment { IsTrue (D.state device.old).told → LeavesEither image.old pages.items root (D.state device.old) (D.state device.new) (D.leaves device.old) (D.leaves device.new) }

    // The bytes written are those of the pages, 64 of the root with the directory's numbers, and 1 of the selector.
    ensures put { OnOk result (IsTrue (D.state device.old).told → (D.state device.new).put ≡ (D.state device.old).put + total pages.items + 64 + 4 * directory_pages image.old.blksize root.pgpool + 1) }
    ensures put_most { IsTrue (D.state device.old).told → (D.state device.new).put ≤ (D.state device.old).put + total pages.items + 64 + 4 * directory_pages image.old.blksize root.pgpool + 1 }

    ensures failed { IsErrOf result DeviceError.Failed → Rose (D.state device.old).disk_faults (D.state device.new).disk_faults }
    ensures memory { IsErrOf result DeviceError.Memory → IsTrue (D.state device.old).told → Rests (D.state device.old) (D.state device.new) (D.leaves device.old) (D.leaves device.new) }
    ensures fine { (IsErrOf result DeviceError.Failed → ⊥) → SameFaults (D.state device.old) (D.state device.new) }
    ensures frame { Frame (D.state device.old) (D.state device.new) }
    ensures names { SameNames (D.state device.old) (D.state device.new) }
{
    let writes = writes_of(alloc, image, pages, &root)?;
    let byte = selector(!image.second());
    let end = file_end(image, &root);
    commit_pages(device, writes.as_slice(), byte, end)?;
    image.turn(root);
    Ok(())
}
