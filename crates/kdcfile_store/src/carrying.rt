//! What is made in memory of a whole content that is to be kept, before anything is written.
ghost use Rattle.std.specs.Prelude.{◌≡◌, ◌≤◌, ◌<◌, ◌^◌, length, IfOk};
ghost use Rattle.kd_records.specs.{Contents.{IsContent}, Charge.{IsBlockSize, total_charge}, Identity.{IsIdentity}};
ghost use Rattle.kdcfile_layout.specs.Pools.{ArePlanned, free_count};
ghost use Rattle.kdcfile_layout.specs.Layout.{page_count as page_count_of};
ghost use Rattle.kdcfile_layout.specs.Opened.{root_for};
ghost use Rattle.page_drafts.specs.Drafts.{IsPlan};
ghost use Rattle.kdcfile_store.specs.{Paged.{identity_with}, Whole.{CanDraftWhole, IsWholeContent, IsWholeDraft, used_by, whole_pages, widened}};

use crate::filed::Filed;
use crate::fresh::fresh_table;
use crate::store::StoreLimits;
use kd_base::{Bytes, OutOfMemory};
use kd_records::{Content, RecordKey, charge};
use kdcfile_layout::kdcfile_images::Root;
use kdcfile_layout::page_pool::{Pages, Pool};
use kdcfile_layout::{PageWrite, directory_pages, page_count};
use page_drafts::Draft;
use std::alloc::Global;

/// A content with its table and its root, the pages that are written for it, and the pool once they alone are used.
#[derive(Drop)]
pub(crate) struct Whole {
    pub filed: Filed,
    pub pool: Pool,
    pub root: Root,
    pub writes: Vec<PageWrite>,
}

// The pages of all records.
fn record_pages(size: u32, records: &[(RecordKey, Bytes)]) -> u32
    requires size { IsBlockSize size }
    requires few { total_charge size records.now < 2 ^ 32 }
    ensures { result ≡ total_charge size records.now }
{
    let mut pages = 0;
    for record in records {
        pages += charge(record.1.len() as u64, size) as u32;
    }
    pages
}

// Free pages for all records and for the whole directory, in the file with the page pool that it gets.
fn whole_plan(
    alloc: Global,
    limits: &StoreLimits,
    pool: &Pool,
    records: &[(RecordKey, Bytes)],
) -> Result<Pages, OutOfMemory>
    requires size { IsBlockSize limits.now.blksize }
    requires most { limits.now.pgpool ≤ 30000 }
    requires charge { total_charge limits.now.blksize records.now ≤ limits.now.pgpool }
    requires wider { length pool.now ≤ page_count_of limits.now.blksize limits.now.pgpool }
    requires few { length pool.now < 2 ^ 32 }
    requires enough { whole_pages limits.now.blksize limits.now.pgpool records.now ≤ free_count (widened limits.now.blksize limits.now.pgpool pool.now) }
    ensures { IfOk result (λ p. ArePlanned (widened limits.now.blksize limits.now.pgpool pool.now) (whole_pages limits.now.blksize limits.now.pgpool records.now) p) }
{
    let wide = pool.widened(alloc, page_count(limits.blksize, limits.pgpool))?;
    let directory = directory_pages(limits.blksize, limits.pgpool);
    let needed = record_pages(limits.blksize, records) + directory;
    let plan = wide.plan(alloc, needed, &[])?;
    Ok(plan.pages)
}

// A pool in which just these pages are used.
fn used_pool(alloc: Global, limits: &StoreLimits, plan: &[u32]) -> Result<Pool, OutOfMemory>
    requires size { IsBlockSize limits.now.blksize }
    requires most { limits.now.pgpool ≤ 30000 }
    requires planned { IsPlan limits.now.blksize limits.now.pgpool plan.now }
    ensures { IfOk result (λ p. p ≡ used_by limits.now.blksize limits.now.pgpool plan.now) }
{
    let mut pool = Pool::new(alloc, page_count(limits.blksize, limits.pgpool))?;
    pool.mark_all(plan);
    Ok(pool)
}

// A draft of all records on these pages. Until the directory is written it has numbers of other pages.
fn whole_draft(
    alloc: Global,
    limits: &StoreLimits,
    pool: &Pool,
    plan: &[u32],
    records: &[(RecordKey, Bytes)],
) -> Result<Draft, OutOfMemory>
    requires can { CanDraftWhole limits.now.blksize limits.now.pgpool plan.now records.now }
    requires used { pool.now ≡ used_by limits.now.blksize limits.now.pgpool plan.now }
    ensures { IfOk result (λ d. IsWholeDraft limits.now.blksize limits.now.pgpool plan.now records.now d) }
{
    let others = pool.plan(alloc, directory_pages(limits.blksize, limits.pgpool), &[])?;
    let table = fresh_table(alloc, limits.blksize, limits.pgpool)?;
    let mut draft = Draft::unwritten(alloc, others.pages.into_vec(), table)?;
    draft.prepare_whole(alloc, limits.blksize, plan, records)?;
    Ok(draft)
}

// The root of this content, whose directory has these pages.
fn whole_root(
    limits: &StoreLimits,
    fingerprint: &[u8; 32],
    content: &Content,
    directory: Pages,
) -> Root
    requires few { length content.now.items < 2 ^ 32 }
    ensures { result ≡ root_for (identity_with limits.now fingerprint.now) content.now directory }
{
    Root {
        fingerprint: *fingerprint,
        clock: content.clock,
        next_job: content.next_job,
        pgpool: limits.pgpool,
        directory,
        records: content.items.len() as u32,
    }
}

/// All that is written and kept for this content, in the file with these limits and this fingerprint. It is written on
/// pages that are free in the pool, which keeps the content that was before.
pub(crate) fn make_whole(
    alloc: Global,
    limits: &StoreLimits,
    fingerprint: &[u8; 32],
    pool: &Pool,
    content: Content,
) -> Result<Whole, OutOfMemory>
    requires identity { IsIdentity (identity_with limits.now fingerprint.now) }
    requires content { IsContent content }
    requires charge { total_charge limits.now.blksize content.items ≤ limits.now.pgpool }
    requires wider { length pool.now ≤ page_count_of limits.now.blksize limits.now.pgpool }
    requires few { length pool.now < 2 ^ 32 }
    requires enough { whole_pages limits.now.blksize limits.now.pgpool content.items ≤ free_count (widened limits.now.blksize limits.now.pgpool pool.now) }
    ensures { IfOk result (λ w. IsWholeContent pool.now (identity_with limits.now fingerprint.now) content w) }
{
    let records = content.items.as_slice();
    let plan = whole_plan(alloc, limits, pool, records)?;
    let used = used_pool(alloc, limits, plan.as_slice())?;
    let draft = whole_draft(alloc, limits, &used, plan.as_slice(), records)?;
    let parts = draft.into_parts();
    let directory = Pages::from_vec(parts.directory);
    let root = whole_root(limits, fingerprint, &content, directory);
    Ok(Whole {
        filed: Filed {
            table: parts.table.done(),
            content,
        },
        pool: used,
        root,
        writes: parts.writes,
    })
}
