//! Writes of pages side by side, made as one.
ghost use Rattle.std.specs.Prelude.{◌↔◌, ◌≡◌, ◌≤◌, ◌<◌, ◌+◌, ◌++◌, ◌∷◌, [], List, IsTrue, IfOk, OnOk};
ghost use Rattle.kdcfile_layout.specs.declared.page.PageWrite.{PageWrite};
ghost use Rattle.kdcfile_layout.specs.Joined.{Follows, NoneFollows, joined_write, AreJoined};

use crate::page::PageWrite;
use kd_base::{Bytes, OutOfMemory};
use std::alloc::Global;

// Where the pages begin.
const PAGES: u64 = 24_576;

// Whether the second write is of pages, and begins where the first ends.
fn follows(write: &PageWrite, next: &PageWrite) -> bool
    ensures { IsTrue result ↔ Follows write.now next.now }
{
    write.at >= PAGES && next.at >= write.at && next.at - write.at == write.bytes.len() as u64
}

// Both writes as one.
fn both(write: PageWrite, next: &PageWrite) -> Result<PageWrite, OutOfMemory>
    ensures { IfOk result (λ w. w ≡ joined_write write next.now) }
{
    let mut bytes = write.bytes.into_vec();
    bytes.extend_from_slice(next.bytes.as_slice())?;
    Ok(PageWrite {
        at: write.at,
        bytes: Bytes::from_vec(bytes),
    })
}

// Adds a write.
fn put_apart(to: &mut Vec<PageWrite>, next: PageWrite) -> Result<(), OutOfMemory>
    ensures { OnOk result (to.new.items ≡ to.old.items ++ next ∷ []) }
{
    to.push(next)?;
    Ok(())
}

// Adds a write, joined with the last one where it follows that.
fn put_joined(to: &mut Vec<PageWrite>, next: PageWrite) -> Result<(), OutOfMemory>
    ensures { OnOk result ((ws : List PageWrite) → AreJoined ws to.old.items → AreJoined (ws ++ next ∷ []) to.new.items) }
{
    match to.pop() {
        None => put_apart(to, next),
        Some(last) => {
            if follows(&last, &next) {
                to.push(both(last, &next)?)?;
                return Ok(());
            }
            to.push(last)?;
            put_apart(to, next)
        }
    }
}

// Whether no write follows the one before it.
fn are_apart(writes: &[PageWrite]) -> bool
    ensures { IsTrue result → NoneFollows writes.now }
{
    for n in 1..writes.len() {
        if follows(&writes[n - 1], &writes[n]) {
            return false;
        }
    }
    true
}

/// These writes, where each of pages is one with the next ones that begin where it ends.
pub fn joined(alloc: Global, writes: Vec<PageWrite>) -> Result<Vec<PageWrite>, OutOfMemory>
    ensures { IfOk result (λ v. AreJoined writes.items v.items) }
{
    if are_apart(writes.as_slice()) {
        return Ok(writes);
    }
    let mut out = Vec::new(alloc);
    for write in writes {
        put_joined(&mut out, write)?;
    }
    Ok(out)
}
