//! Which pages of a KDCFILE are used: a pool of pages, each free or used, and plans of the pages that a commit takes
//! and frees.
//!
//! It stands on kd_base. To what writes a file, its contract says that planned pages are distinct and free, and which
//! pages are used after a plan is settled.
ghost use Rattle.std.specs.Prelude.{◌≡◌, ◌≤◌, ◌<◌, ◌+◌, ◌++◌, ◌^◌, ◌-◌, ℕ, true, false, not, List, length, set, replicate, take, drop, IsTrue, IfOk, OnOk, All};
ghost use Rattle.kdcfile_layout.specs.Places.{At, IsDistinct};
ghost use Rattle.kdcfile_layout.specs.Pools.{IsPool, IsCountedDown, AreLast, ArePlanned, free_count, flagged, moved_order, moved_place};

use kd_base::{OutOfMemory, Sequence};
use std::alloc::Global;
use std::marker::Model;

/// Which pages are used. The pages are kept in an order with the free ones first, and each page knows its place there:
/// to use or to free a page, it changes places with the one at the border. Contracts see a flag for each page.
pub struct Pool {
    used: Vec<bool>,
    order: Vec<u32>,
    place: Vec<u32>,
    free: usize,
}

impl Drop for Pool {
    fn drop(self) {
        let Pool {
            used,
            order,
            place,
            free,
        } = self;
        let _ = used;
        let _ = order;
        let _ = place;
        let _ = free;
    }
}

impl Model for Pool {
    ghost use Rattle.std.specs.Prelude.{List, Bool};
    ghost use Rattle.kdcfile_layout.specs.Pools.{IsPool};

    ghost Value = { List Bool };

    ghost view = { λ p. p.used.items };

    ghost invariant = { λ p. IsPool p.used.items p.order.items p.place.items p.free };
}

/// The pages at two places change places.
fn exchange(order: &mut Vec<u32>, place: &mut Vec<u32>, page: u32, a: usize, b: usize)
    requires a { a < length order.old.items }
    requires b { b < length order.old.items }
    requires few { length order.old.items ≤ 2 ^ 32 }
    requires page { page < length place.old.items }
    requires other { (q : ℕ) → At order.old.items b q → q < length place.old.items }
    ensures order { (q : ℕ) → At order.old.items b q → order.new.items ≡ moved_order order.old.items page a b q }
    ensures place { (q : ℕ) → At order.old.items b q → place.new.items ≡ moved_place place.old.items page a b q }
{
    let other = order[b];
    order[a] = other;
    order[b] = page;
    place[other as usize] = a as u32;
    place[page as usize] = b as u32;
}

/// The pages of a commit: those that it will use, and those that it will free.
#[derive(Drop)]
pub struct Plan {
    pub pages: Pages,
    pub freed: Pages,
}

/// Page numbers.
pub type Pages = Sequence<u32>;

// So many numbers, from the highest down to 0.
fn numbers(alloc: Global, count: u32) -> Result<Vec<u32>, OutOfMemory>
    ensures { IfOk result (λ v. IsCountedDown v.items count count) }
{
    let mut out = Vec::new(alloc);
    for n in 0..count {
        out.push(count - 1 - n)?;
    }
    Ok(out)
}

// The pages at the last of the first `free` places, so many, from the last one downward.
fn last_places(
    alloc: Global,
    order: &Vec<u32>,
    free: usize,
    count: u32,
) -> Result<Vec<u32>, OutOfMemory>
    requires enough { count ≤ free }
    requires within { free ≤ length order.now.items }
    ensures { IfOk result (λ v. AreLast order.now.items free count v.items) }
{
    let mut out = Vec::with_capacity(alloc, count as usize)?;
    for n in 0..count {
        out.push(order[free - 1 - n as usize])?;
    }
    Ok(out)
}

impl Pool {
    /// A pool of so many pages, which are all free.
    pub fn new(alloc: Global, pages: u32) -> Result<Pool, OutOfMemory>
        ensures { IfOk result (λ p. p ≡ replicate pages false) }
    {
        let order = numbers(alloc, pages)?;
        let place = numbers(alloc, pages)?;
        let used = vec![in alloc; false; pages as usize]?;
        Ok(Pool {
            used,
            order,
            place,
            free: pages as usize,
        })
    }

    /// So many free pages, with those that will be freed. It costs as much as they are, however many pages there are.
    /// A new pool plans its lowest pages first, in ascending order.
    pub fn plan(&self, alloc: Global, needed: u32, freed: &[u32]) -> Result<Plan, OutOfMemory>
        requires enough { needed ≤ free_count self.now }
        ensures planned { IfOk result (λ p. ArePlanned self.now needed p.pages) }
        ensures freed { IfOk result (λ p. p.freed ≡ freed.now) }
    {
        let pages = last_places(alloc, &self.order, self.free, needed)?;
        Ok(Plan {
            pages: Pages::from_vec(pages),
            freed: Pages::from_vec(Vec::from_slice(alloc, freed)?),
        })
    }

    /// The planned pages become used, and then the freed ones free. It takes no memory.
    pub fn carry_out(&mut self, plan: Plan)
        requires few { length self.old < 2 ^ 32 }
        requires planned { ArePlanned self.old (length plan.pages) plan.pages }
        requires distinct { IsDistinct plan.freed }
        requires used { (n p : ℕ) → At plan.freed n p → At self.old p true }
        ensures flags { self.new ≡ flagged false (flagged true self.old plan.pages) plan.freed }
        ensures count { free_count self.new + length plan.pages ≡ free_count self.old + length plan.freed }
    {
        self.mark_all(plan.pages.as_slice());
        self.release_all(plan.freed.as_slice());
    }

    /// These pages become used. It takes no memory.
    pub fn mark_all(&mut self, pages: &[u32])
        requires few { length self.old < 2 ^ 32 }
        requires there { (n p : ℕ) → At pages.now n p → p < length self.old }
        ensures { self.new ≡ flagged true self.old pages.now }
    {
        for page in pages {
            self.mark(*page);
        }
    }

    // These pages become free, from the last one on, so that the first one is used again first.
    fn release_all(&mut self, pages: &[u32])
        requires few { length self.old < 2 ^ 32 }
        requires distinct { IsDistinct pages.now }
        requires used { (n p : ℕ) → At pages.now n p → At self.old p true }
        ensures { self.new ≡ flagged false self.old pages.now }
    {
        for n in 0..pages.len() {
            self.release(pages[pages.len() - 1 - n]);
        }
    }

    /// The same pool with more pages, `pages` in all, of which the new ones are free. It costs as much as they are all.
    pub fn widened(&self, alloc: Global, pages: u32) -> Result<Pool, OutOfMemory>
        requires few { length self.now < 2 ^ 32 }
        requires more { length self.now ≤ pages }
        ensures { IfOk result (λ p. p ≡ self.now ++ replicate (pages - length self.now) false) }
    {
        let mut pool = Pool::new(alloc, pages)?;
        for page in 0..self.used.len() {
            pool.copy_mark(page as u32, self.used[page]);
        }
        Ok(pool)
    }

    // The free page is used, if it is used elsewhere.
    fn copy_mark(&mut self, page: u32, used: bool)
        requires few { length self.old < 2 ^ 32 }
        requires free { At self.old page false }
        ensures { self.new ≡ set self.old page used }
    {
        if used {
            self.mark(page);
        }
    }

    /// How many pages are free. It takes no memory.
    pub fn free_pages(&self) -> u32
        requires { length self.now < 2 ^ 32 }
        ensures { result ≡ free_count self.now }
    {
        self.free as u32
    }

    /// Makes a page used, unless it is; false where it is used already. It takes no memory.
    pub fn mark(&mut self, page: u32) -> bool
        requires few { length self.old < 2 ^ 32 }
        requires there { page < length self.old }
        ensures answer { At self.old page (not result) }
        ensures used { self.new ≡ set self.old page true }
        ensures count { result ≡ true → free_count self.new + 1 ≡ free_count self.old }
        ensures same { result ≡ false → self.new ≡ self.old }
    {
        if self.used[page as usize] {
            return false;
        }
        let place = self.place[page as usize] as usize;
        exchange(&mut self.order, &mut self.place, page, place, self.free - 1);
        self.used[page as usize] = true;
        self.free -= 1;
        true
    }

    /// Makes a used page free. It takes no memory.
    fn release(&mut self, page: u32)
        requires few { length self.old < 2 ^ 32 }
        requires used { At self.old page true }
        ensures { self.new ≡ set self.old page false }
    {
        let place = self.place[page as usize] as usize;
        exchange(&mut self.order, &mut self.place, page, place, self.free);
        self.used[page as usize] = false;
        self.free += 1;
    }
}
