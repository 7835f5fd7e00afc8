//! How many pages a commit needs, and which.
ghost use Rattle.std.specs.Prelude.{◌≡◌, ◌≤◌, ◌<◌, ◌+◌, ◌^◌, length, IfOk};
ghost use Rattle.kd_records.specs.Charge.{IsBlockSize};
ghost use Rattle.kdcfile_layout.specs.Pools.{ArePlanned, free_count};
ghost use Rattle.kdcfile_layout.specs.Bound.{charge_put, put_charge};
ghost use Rattle.kdcfile_store.specs.Next.{needed_pages};

use kd_base::{Bytes, OutOfMemory};
use kd_records::{Patch, RecordKey, charge};
use kdcfile_layout::kdcfile_images::Image;
use kdcfile_layout::page_pool::{Plan, Pool};
use std::alloc::Global;

// The pages of a new value, if there is one.
fn value_pages(size: u32, value: &Option<Bytes>) -> u32
    requires size { IsBlockSize size }
    requires few { charge_put size value.now < 2 ^ 32 }
    ensures { result ≡ charge_put size value.now }
{
    match value {
        None => 0,
        Some(value) => charge(value.len() as u64, size) as u32,
    }
}

// The pages of all new values.
fn put_pages(size: u32, changes: &[(RecordKey, Option<Bytes>)]) -> u32
    requires size { IsBlockSize size }
    requires few { put_charge size changes.now < 2 ^ 32 }
    ensures { result ≡ put_charge size changes.now }
{
    let mut pages = 0;
    for change in changes {
        pages += value_pages(size, &change.1);
    }
    pages
}

/// Free pages for the new values, and for each page of the directory that may have to be written.
pub(crate) fn next_plan(
    alloc: Global,
    image: &Image,
    pool: &Pool,
    patch: &Patch,
) -> Result<Plan, OutOfMemory>
    requires few { put_charge image.now.blksize patch.now.items + length image.now.root.directory < 2 ^ 32 }
    requires enough { needed_pages image.now patch.now ≤ free_count pool.now }
    ensures { IfOk result (λ p. ArePlanned pool.now (needed_pages image.now patch.now) p.pages) }
{
    let changes = patch.items.as_slice();
    let values = put_pages(image.blksize(), changes);
    let touched = changes.len().min(image.root().directory.len()) as u32;
    pool.plan(alloc, values + touched, &[])
}
