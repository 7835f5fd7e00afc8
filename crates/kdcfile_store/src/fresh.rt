//! The pool and the table of a file that is made.
ghost use Rattle.std.specs.Prelude.{◌≡◌, ◌≤◌, ◌<◌, ◌*◌, ◌^◌, replicate, true, length, IfOk};
ghost use Rattle.kd_records.specs.Charge.{IsBlockSize};
ghost use Rattle.kdcfile_layout.specs.Pools.{flagged};
ghost use Rattle.kdcfile_layout.specs.Layout.{directory_pages, slots_in_page, free_slot};
ghost use Rattle.kdcfile_layout.specs.Fresh.{numbers};
ghost use Rattle.kdcfile_store.specs.FreshPool.{fresh_used};

use kd_base::OutOfMemory;
use kdcfile_layout::page_pool::Pool;
use kdcfile_layout::{directory_pages, page_count};
use page_drafts::Table;
use std::alloc::Global;

// The first pages become used.
fn mark_first(pool: &mut Pool, count: u32)
    requires few { length pool.old < 2 ^ 32 }
    requires there { count ≤ length pool.old }
    ensures { pool.new ≡ flagged true pool.old (numbers count) }
{
    for page in 0..count {
        pool.mark(page);
    }
}

/// A pool in which the pages of the directory are used, which are the first ones.
pub(crate) fn fresh_pool(alloc: Global, blksize: u32, pgpool: u32) -> Result<Pool, OutOfMemory>
    requires size { IsBlockSize blksize }
    requires most { pgpool ≤ 30000 }
    ensures { IfOk result (λ p. p ≡ fresh_used blksize pgpool) }
{
    let mut pool = Pool::new(alloc, page_count(blksize, pgpool))?;
    mark_first(&mut pool, directory_pages(blksize, pgpool));
    Ok(pool)
}

/// All slots of the directory, free.
pub(crate) fn fresh_table(alloc: Global, blksize: u32, pgpool: u32) -> Result<Table, OutOfMemory>
    requires size { IsBlockSize blksize }
    requires most { pgpool ≤ 30000 }
    ensures { IfOk result (λ t. t ≡ replicate (directory_pages blksize pgpool * slots_in_page blksize) free_slot) }
{
    Table::new(alloc, directory_pages(blksize, pgpool) * (blksize / 32))
}
