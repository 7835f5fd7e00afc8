//! Which pages of a directory are stale.
ghost use Rattle.std.specs.Prelude.{◌≡◌, ◌<◌, ℕ, true, false, length, replicate, set, IfSome, IfNone, IfOk, OnOk};
ghost use Rattle.kdcfile_layout.specs.Places.{At};

use kd_base::OutOfMemory;
use kd_base::sorted_pairs::SortedPairs;
use std::alloc::Global;
use std::marker::Model;

/// The stale pages of a directory, in ascending order: what there is to do with them costs as much as they are, however
/// many pages the directory has. Contracts see a flag for each page.
#[derive(Drop)]
pub(crate) struct StalePages {
    count: usize,
    stale: SortedPairs<usize, ()>,
}

impl Model for StalePages {
    ghost use Rattle.std.specs.Prelude.{List, Bool};
    ghost use Rattle.page_drafts.specs.Stale.{AllBelow, flags_of};

    ghost Value = { List Bool };

    ghost view = { λ s. flags_of s.count s.stale };

    ghost invariant = { λ s. AllBelow s.count s.stale };
}

impl StalePages {
    /// None of so many pages. It takes no memory.
    pub fn none(alloc: Global, count: usize) -> StalePages
        ensures { result ≡ replicate count false }
    {
        StalePages {
            count,
            stale: SortedPairs::new(alloc),
        }
    }

    /// All of so many pages.
    pub fn all(alloc: Global, count: usize) -> Result<StalePages, OutOfMemory>
        ensures { IfOk result (λ s. s ≡ replicate count true) }
    {
        let mut pages = StalePages::none(alloc, count);
        for page in 0..count {
            pages.mark(page)?;
        }
        Ok(pages)
    }

    /// The page is stale from now on.
    pub fn mark(&mut self, page: usize) -> Result<(), OutOfMemory>
        requires { page < length self.old }
        ensures { OnOk result (self.new ≡ set self.old page true) }
    {
        self.stale.put(page, ())
    }

    /// The page is not stale any more. It takes no memory.
    pub fn clear(&mut self, page: usize)
        ensures { self.new ≡ set self.old page false }
    {
        self.stale.remove(&page);
    }

    /// The first page that is stale.
    pub fn first(&self) -> Option<usize>
        ensures stale { IfSome result (λ k. At self.now k true) }
        ensures first { IfSome result (λ k. (j : ℕ) → j < k → At self.now j false) }
        ensures none { IfNone result ((j : ℕ) → j < length self.now → At self.now j false) }
    {
        match self.stale.as_slice() {
            [] => None,
            [page, ..] => Some(page.0),
        }
    }
}
