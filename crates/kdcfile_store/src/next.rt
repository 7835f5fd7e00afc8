//! What a commit makes in memory, before anything is written.
ghost use Rattle.std.specs.Prelude.{◌≡◌, ◌≤◌, ◌<◌, ◌^◌, take, length, IfOk, IfErr};
ghost use Rattle.kd_records.specs.{Contents.{IsPatch, patched}, Charge.{total_charge}};
ghost use Rattle.kdcfile_layout.specs.Stored.{IsStored};
ghost use Rattle.kdcfile_layout.specs.Opened.{identity_of, layout_in, root_for};
ghost use Rattle.page_drafts.specs.Prepared.{Prepared};
ghost use Rattle.kdcfile_store.specs.Next.{CanDraft, IsDrafted, IsNext};

use crate::filed::{Filed, Filing};
use crate::plan::next_plan;
use kd_records::{Patch, PatchedContent};
use kdcfile_layout::PageWrite;
use kdcfile_layout::kdcfile_images::{Image, Root};
use kdcfile_layout::page_pool::{Pages, Plan, Pool};
use page_drafts::{Draft, Table};
use std::alloc::Global;

/// What is kept next, which can be taken back, with its root, the pages that are written for it, and which pages become
/// used and which free.
#[derive(Drop)]
pub(crate) struct Next {
    pub filing: Filing,
    pub root: Root,
    pub writes: Vec<PageWrite>,
    pub last: Plan,
}

/// The root of the same file for this content, whose directory has these pages.
fn next_root(image: &Image, content: &PatchedContent, directory: Pages) -> Root
    requires few { length content.now.content.items < 2 ^ 32 }
    ensures root { result ≡ root_for (identity_of image.now) content.now.content directory }
    ensures clock { content.now.content.clock < 2 ^ 64 }
    ensures next_job { content.now.content.next_job < 2 ^ 64 }
{
    let root = image.root();
    Root {
        fingerprint: root.fingerprint,
        clock: content.clock(),
        next_job: content.next_job(),
        pgpool: root.pgpool,
        directory,
        records: content.len() as u32,
    }
}

// The patch made in a draft over the directory's numbers and these slots, which come back where memory runs out.
fn next_draft(
    alloc: Global,
    image: &Image,
    table: Table,
    plan: &Plan,
    patch: &Patch,
    long: u64,
) -> Result<Draft, Table>
    requires { CanDraft image.now table plan.now.pages patch.now.items }
    ensures ok { IfOk result (λ d. Prepared image.now.blksize long plan.now.pages patch.now.items (layout_in image.now.root table) d) }
    ensures before { IfOk result (λ d. d.before ≡ table) }
    ensures err { IfErr result (λ kept. kept ≡ table) }
{
    let Ok(directory) = image.root().directory.as_slice().to_vec(alloc) else {
        return Err(table);
    };
    let mut draft = Draft::new(alloc, directory, table, long);
    let pages = plan.pages.as_slice();
    match draft.prepare(alloc, image.blksize(), pages, patch.items.as_slice()) {
        Ok(()) => Ok(draft),
        Err(_) => Err(draft.back()),
    }
}

// What becomes used and free: as many pages of the plan as are taken, and those that are freed.
fn last_plan(plan: Plan, taken: usize, freed: Vec<u32>) -> Plan
    requires { taken ≤ length plan.pages }
    ensures pages { result.pages ≡ take taken plan.pages }
    ensures freed { result.freed ≡ freed.items }
{
    let mut pages = plan.pages.into_vec();
    pages.truncate(taken);
    Plan {
        pages: Pages::from_vec(pages),
        freed: Pages::from_vec(freed),
    }
}

// All parts of a draft in their places.
fn next_of(image: &Image, content: PatchedContent, plan: Plan, draft: Draft) -> Next
    requires few { length content.content.items < 2 ^ 32 }
    requires taken { draft.taken ≤ length plan.pages }
    ensures { IsDrafted image.now content plan.pages draft result }
{
    let parts = draft.into_parts();
    let root = next_root(image, &content, Pages::from_vec(parts.directory));
    Next {
        filing: Filing {
            table: parts.table,
            content,
        },
        root,
        writes: parts.writes,
        last: last_plan(plan, parts.taken, parts.freed),
    }
}

/// All that a commit of this patch writes and keeps, in a file that has `long` bytes. What is kept is changed where it is,
/// and comes back as it was where memory runs out.
pub(crate) fn make_next(
    alloc: Global,
    image: &Image,
    pool: &Pool,
    filed: Filed,
    patch: &Patch,
    long: u64,
) -> Result<Next, Filed>
    requires stored { IsStored (identity_of image.now) filed.content (layout_in image.now.root filed.table) pool.now }
    requires patch { IsPatch patch.now }
    requires charge_before { total_charge image.now.blksize filed.content.items ≤ image.now.root.pgpool }
    requires charge_after { total_charge image.now.blksize (patched filed.content patch.now).items ≤ image.now.root.pgpool }
    ensures ok { IfOk result (λ n. IsNext image.now filed.content (layout_in image.now.root filed.table) pool.now patch.now long n) }
    ensures table_before { IfOk result (λ n. n.filing.table.before ≡ filed.table) }
    ensures content_before { IfOk result (λ n. n.filing.content.before ≡ filed.content) }
    ensures err { IfErr result (λ kept. kept ≡ filed) }
{
    let Ok(plan) = next_plan(alloc, image, pool, patch) else {
        return Err(filed);
    };
    let (table, content) = filed.into_parts();
    let content = match content.patch_in_place(alloc, patch) {
        Ok(content) => content,
        Err(content) => return Err(Filed { table, content }),
    };
    match next_draft(alloc, image, table, &plan, patch, long) {
        Ok(draft) => Ok(next_of(image, content, plan, draft)),
        Err(table) => Err(Filed {
            table,
            content: content.back(),
        }),
    }
}
