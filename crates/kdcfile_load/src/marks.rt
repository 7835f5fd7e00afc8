//! Pages that become used.
ghost use Rattle.std.specs.Prelude.{◌≡◌, ◌<◌, ◌^◌, ◌++◌, List, ℕ, true, false, length, set, IsTrue, IfOk, IfSome, IfNone};
ghost use Rattle.kdcfile_layout.specs.{Places.{At}, Pools.{flagged}};
ghost use Rattle.kdcfile_load.specs.Marks.{AreClear, pages_of, pages_in, all_free};

use kd_base::OutOfMemory;
use kdcfile_layout::Chain;
use kdcfile_layout::page_pool::Pool;
use std::alloc::Global;

// Makes a page used; false where it is not there, or is used already.
fn mark_one(pool: &mut Pool, count: u32, page: u32) -> bool
    requires count { length pool.old ≡ count }
    ensures clear { IsTrue result → At pool.old page false }
    ensures used { IsTrue result → pool.new ≡ set pool.old page true }
    ensures taken { result ≡ false → At pool.old page false → ⊥ }
{
    page < count && pool.mark(page)
}

// The same for all of these pages.
fn mark_all(pool: &mut Pool, count: u32, pages: &[u32]) -> bool
    requires count { length pool.old ≡ count }
    ensures long { IsTrue result → length pool.new ≡ count }
    ensures clear { IsTrue result → AreClear pool.old pages.now }
    ensures used { IsTrue result → pool.new ≡ flagged true pool.old pages.now }
    ensures taken { result ≡ false → AreClear pool.old pages.now → ⊥ }
{
    for page in pages {
        if !mark_one(pool, count, *page) {
            return false;
        }
    }
    true
}

// The same for the pages of a slot.
fn mark_slot(pool: &mut Pool, count: u32, slot: &Option<Chain>) -> bool
    requires count { length pool.old ≡ count }
    ensures long { IsTrue result → length pool.new ≡ count }
    ensures clear { IsTrue result → AreClear pool.old (pages_of slot.now) }
    ensures used { IsTrue result → pool.new ≡ flagged true pool.old (pages_of slot.now) }
    ensures taken { result ≡ false → AreClear pool.old (pages_of slot.now) → ⊥ }
{
    match slot {
        None => true,
        Some(chain) => mark_all(pool, count, chain.pages.as_slice()),
    }
}

// The same for the pages of all slots.
fn mark_slots(pool: &mut Pool, count: u32, slots: &[Option<Chain>]) -> bool
    requires count { length pool.old ≡ count }
    ensures clear { IsTrue result → AreClear pool.old (pages_in slots.now) }
    ensures used { IsTrue result → pool.new ≡ flagged true pool.old (pages_in slots.now) }
    ensures taken { result ≡ false → AreClear pool.old (pages_in slots.now) → ⊥ }
{
    for slot in slots {
        if !mark_slot(pool, count, slot) {
            return false;
        }
    }
    true
}

/// The pool of so many pages with these used, unless one of them is not there or is named twice.
pub fn pool_of(
    alloc: Global,
    count: u32,
    directory: &[u32],
    slots: &[Option<Chain>],
) -> Result<Option<Pool>, OutOfMemory>
    ensures clear { IfOk result (λ o. IfSome o (λ p. AreClear (all_free count) (directory.now ++ pages_in slots.now))) }
    ensures used { IfOk result (λ o. IfSome o (λ p. p ≡ flagged true (all_free count) (directory.now ++ pages_in slots.now))) }
    ensures taken { IfOk result (λ o. IfNone o (AreClear (all_free count) (directory.now ++ pages_in slots.now) → ⊥)) }
{
    let mut pool = Pool::new(alloc, count)?;
    if !mark_all(&mut pool, count, directory) {
        return Ok(None);
    }
    if !mark_slots(&mut pool, count, slots) {
        return Ok(None);
    }
    Ok(Some(pool))
}
