//! A commit that is being prepared: the next layout, and the pages that are written for it.
ghost use Rattle.std.specs.Prelude.{◌≡◌, ◌≤◌, ◌<◌, ◌+◌, ◌*◌, ◌/◌, ◌^◌, min, true, false, List, ℕ, Some, length, All, IfOk, OnOk};
ghost use Rattle.kd_records.specs.Contents.{Record, Change, IsRecord};
ghost use Rattle.kd_records.specs.Charge.{IsBlockSize, charge_of, total_charge};
ghost use Rattle.kdcfile_layout.specs.Places.{At};
ghost use Rattle.kdcfile_layout.specs.Layout.{used};
ghost use Rattle.kdcfile_layout.specs.Bound.{charge_put, put_charge};
ghost use Rattle.page_drafts.specs.Tables.{IsPlaceFor, IsAbsent};
ghost use Rattle.page_drafts.specs.DraftSteps.{next_pages};
ghost use Rattle.page_drafts.specs.Drafting.{Drafting, put_in, touched, unprepared, IsRemoved, IsPageWritten, IsSized, stale_pages};
ghost use Rattle.page_drafts.specs.DraftRuns.{RemovesOne, RemovesAll, PutsOne, PutsAll, HasRoom, AreWide, Freshens};
ghost use Rattle.page_drafts.specs.{Prepared.{CanPrepare, Prepared}, WholeDrafts.{unwritten, puts_of, CanPrepareWhole, PreparedWhole}};

use crate::stale::StalePages;
use crate::table::Table;
use crate::table_draft::TableDraft;
use kd_base::{Bytes, OutOfMemory};
use kd_records::{RecordKey, charge};
use kdcfile_layout::page_pool::Pages;
use kdcfile_layout::{Chain, PageWrite, directory_page, page_place, put_chain};
use std::alloc::Global;
use std::marker::Model;

/// What a commit has prepared so far: the layout, which pages of the directory are stale, the writes, how many pages of
/// the plan they take, the pages that only the old layout names, and a length in bytes that the file has.
#[derive(Drop)]
pub struct Draft {
    directory: Vec<u32>,
    table: TableDraft,
    stale: StalePages,
    writes: Vec<PageWrite>,
    taken: usize,
    freed: Vec<u32>,
    long: u64,
}

/// A draft in parts: the numbers of the directory's pages, the slots, which can be taken back, what is to be written, how many pages of the plan
/// that takes, and the pages that only the old layout names.
#[derive(Drop)]
pub struct DraftParts {
    pub directory: Vec<u32>,
    pub table: TableDraft,
    pub writes: Vec<PageWrite>,
    pub taken: usize,
    pub freed: Vec<u32>,
}

impl Model for Draft {
    ghost use Rattle.page_drafts.specs.Drafting.{Drafting};

    ghost Value = { Drafting };

    ghost view = { λ d. record { layout = record { directory = d.directory.items; slots = d.table.slots }; stale = d.stale; writes = d.writes.items; taken = d.taken; freed = d.freed.items; before = d.table.before; long = d.long } };
}

/// So many pages of the plan, from this one on.
fn planned(alloc: Global, plan: &[u32], from: usize, count: usize) -> Result<Pages, OutOfMemory>
    requires { from + count ≤ length plan.now }
    ensures { IfOk result (λ p. p ≡ next_pages plan.now from count) }
{
    let (_, rest) = plan.split_at(from);
    let (front, _) = rest.split_at(count);
    Ok(Pages::from_vec(Vec::from_slice(alloc, front)?))
}

impl Draft {
    // The directory page of a slot is stale.
    fn touch(&mut self, size: u32, place: usize) -> Result<(), OutOfMemory>
        requires size { IsBlockSize size }
        requires there { place / (size / 32) < length self.old.stale }
        ensures ok { OnOk result (self.new ≡ touched size place self.old) }
        ensures before { self.new.before ≡ self.old.before }
    {
        self.stale.mark(place / (size as usize / 32))
    }

    // Gives a key this value, on the next pages of the plan.
    fn put(
        &mut self,
        alloc: Global,
        size: u32,
        plan: &[u32],
        key: RecordKey,
        value: &[u8],
    ) -> Result<(), OutOfMemory>
        requires size { IsBlockSize size }
        requires value { length value.now < 2 ^ 32 }
        requires enough { self.old.taken + charge_of size (length value.now) ≤ length plan.now }
        requires plan { length plan.now < 2 ^ 32 }
        requires stale { (s : ℕ) → s < length self.old.layout.slots → s / (size / 32) < length self.old.stale }
        requires room { IsAbsent key self.old.layout.slots → used self.old.layout.slots < length self.old.layout.slots }
        ensures ok { OnOk result ((s : ℕ) × IsPlaceFor key s self.old.layout.slots × (self.new ≡ put_in size plan.now key value.now s self.old)) }
        ensures before { self.new.before ≡ self.old.before }
    {
        let count = charge(value.len() as u64, size) as usize;
        let pages = planned(alloc, plan, self.taken, count)?;
        let chain = Chain { key, pages };
        put_chain(alloc, size, self.long, &chain, value, &mut self.writes)?;
        let place = self.table.put(chain, &mut self.freed)?;
        self.touch(size, place)?;
        self.taken += count;
        Ok(())
    }

    // Removes a key's record, if there is one.
    fn remove(&mut self, size: u32, key: &RecordKey) -> Result<(), OutOfMemory>
        requires size { IsBlockSize size }
        requires stale { (s : ℕ) → s < length self.old.layout.slots → s / (size / 32) < length self.old.stale }
        ensures ok { OnOk result (IsRemoved size key.now self.old self.new) }
        ensures before { self.new.before ≡ self.old.before }
    {
        if let Some(place) = self.table.remove(key, &mut self.freed)? {
            self.touch(size, place)?;
        }
        Ok(())
    }

    // Writes the k-th page of the directory on the next page of the plan.
    fn put_directory_page(
        &mut self,
        alloc: Global,
        size: u32,
        plan: &[u32],
        k: usize,
    ) -> Result<(), OutOfMemory>
        requires size { IsBlockSize size }
        requires there { k < length self.old.layout.directory }
        requires stale { length self.old.stale ≡ length self.old.layout.directory }
        requires slots { k * (size / 32) + size / 32 ≤ length self.old.layout.slots }
        requires enough { self.old.taken < length plan.now }
        ensures written { OnOk result (IsPageWritten size plan.now k self.old self.new) }
        ensures before { self.new.before ≡ self.old.before }
    {
        let page = plan[self.taken];
        let bytes = directory_page(alloc, size, self.table.slots(), k)?;
        self.writes.push(PageWrite {
            at: page_place(size, page),
            bytes,
        })?;
        self.freed.push(self.directory[k])?;
        self.directory[k] = page;
        self.stale.clear(k);
        self.taken += 1;
        Ok(())
    }

    // Removes a record, if the change does so.
    fn remove_change(
        &mut self,
        size: u32,
        change: &(RecordKey, Option<Bytes>),
    ) -> Result<(), OutOfMemory>
        requires size { IsBlockSize size }
        requires stale { (s : ℕ) → s < length self.old.layout.slots → s / (size / 32) < length self.old.stale }
        ensures ok { OnOk result (RemovesOne size change.now self.old self.new) }
        ensures before { self.new.before ≡ self.old.before }
    {
        match &change.1 {
            None => self.remove(size, &change.0),
            Some(_) => Ok(()),
        }
    }

    // Removes the records that the changes remove.
    fn remove_all(
        &mut self,
        size: u32,
        changes: &[(RecordKey, Option<Bytes>)],
    ) -> Result<(), OutOfMemory>
        requires size { IsBlockSize size }
        requires sized { IsSized size self.old }
        ensures ok { OnOk result (RemovesAll size changes.now self.old self.new) }
        ensures before { self.new.before ≡ self.old.before }
    {
        for change in changes {
            self.remove_change(size, change)?;
        }
        Ok(())
    }

    // Puts a record, if the change does so.
    fn put_change(
        &mut self,
        alloc: Global,
        size: u32,
        plan: &[u32],
        change: &(RecordKey, Option<Bytes>),
    ) -> Result<(), OutOfMemory>
        requires size { IsBlockSize size }
        requires value { (v : List ℕ) → change.now.1 ≡ Some v → length v < 2 ^ 32 }
        requires enough { self.old.taken + charge_put size change.now.1 ≤ length plan.now }
        requires plan { length plan.now < 2 ^ 32 }
        requires stale { (s : ℕ) → s < length self.old.layout.slots → s / (size / 32) < length self.old.stale }
        requires room { (v : List ℕ) → change.now.1 ≡ Some v → IsAbsent change.now.0 self.old.layout.slots → used self.old.layout.slots < length self.old.layout.slots }
        ensures ok { OnOk result (PutsOne size plan.now change.now self.old self.new) }
        ensures before { self.new.before ≡ self.old.before }
    {
        match &change.1 {
            None => Ok(()),
            Some(value) => self.put(alloc, size, plan, change.0, value.as_slice()),
        }
    }

    // Puts the records that the changes put.
    fn put_all(
        &mut self,
        alloc: Global,
        size: u32,
        plan: &[u32],
        changes: &[(RecordKey, Option<Bytes>)],
    ) -> Result<(), OutOfMemory>
        requires size { IsBlockSize size }
        requires sized { IsSized size self.old }
        requires values { (k : ℕ) (c : Change) (v : List ℕ) → At changes.now k c → c.1 ≡ Some v → length v < 2 ^ 32 }
        requires wide { AreWide changes.now }
        requires enough { self.old.taken + put_charge size changes.now ≤ length plan.now }
        requires plan { length plan.now < 2 ^ 32 }
        requires room { (pool : ℕ) × (items : List Record) × HasRoom size pool items plan.now changes.now self.old }
        ensures ok { OnOk result (PutsAll size plan.now changes.now self.old self.new) }
        ensures before { self.new.before ≡ self.old.before }
    {
        for change in changes {
            self.put_change(alloc, size, plan, change)?;
        }
        Ok(())
    }

    // Puts all these records.
    fn put_records(
        &mut self,
        alloc: Global,
        size: u32,
        plan: &[u32],
        records: &[(RecordKey, Bytes)],
    ) -> Result<(), OutOfMemory>
        requires size { IsBlockSize size }
        requires sized { IsSized size self.old }
        requires records { All IsRecord records.now }
        requires enough { self.old.taken + total_charge size records.now ≤ length plan.now }
        requires plan { length plan.now < 2 ^ 32 }
        requires room { (pool : ℕ) × (items : List Record) × HasRoom size pool items plan.now (puts_of records.now) self.old }
        ensures { OnOk result (PutsAll size plan.now (puts_of records.now) self.old self.new) }
    {
        for record in records {
            self.put(alloc, size, plan, record.0, record.1.as_slice())?;
        }
        Ok(())
    }

    // Writes the stale pages of the directory, from the first one on.
    fn freshen_all(&mut self, alloc: Global, size: u32, plan: &[u32]) -> Result<(), OutOfMemory>
        requires size { IsBlockSize size }
        requires sized { IsSized size self.old }
        requires enough { self.old.taken + stale_pages self.old ≤ length plan.now }
        ensures ok { OnOk result (Freshens size plan.now (length self.old.layout.directory) self.old self.new) }
        ensures before { self.new.before ≡ self.old.before }
    {
        while let Some(k) = self.stale.first() {
            self.put_directory_page(alloc, size, plan, k)?;
        }
        Ok(())
    }

    /// Makes the changes of a patch: what it removes first, so that its slots are free for what it puts. It costs what the
    /// changes are, with the slots of each page of the directory that they touch.
    pub fn prepare(
        &mut self,
        alloc: Global,
        size: u32,
        plan: &[u32],
        changes: &[(RecordKey, Option<Bytes>)],
    ) -> Result<(), OutOfMemory>
        requires size { IsBlockSize size }
        requires fresh { self.old ≡ unprepared self.old.long self.old.layout }
        requires values { (k : ℕ) (c : Change) (v : List ℕ) → At changes.now k c → c.1 ≡ Some v → length v < 2 ^ 32 }
        requires wide { AreWide changes.now }
        requires enough { put_charge size changes.now + min (length changes.now) (length self.old.layout.directory) ≤ length plan.now }
        requires plan { length plan.now < 2 ^ 32 }
        requires room { (pool : ℕ) × (items : List Record) × CanPrepare size pool items plan.now changes.now self.old.layout }
        ensures ok { OnOk result (Prepared size self.old.long plan.now changes.now self.old.layout self.new) }
        ensures before { self.new.before ≡ self.old.before }
    {
        self.remove_all(size, changes)?;
        self.put_all(alloc, size, plan, changes)?;
        self.freshen_all(alloc, size, plan)
    }

    /// Makes a whole content: puts all its records, and writes the whole directory. Each page is written once, on the
    /// next pages of the plan; the numbers that the directory had are given up.
    pub fn prepare_whole(
        &mut self,
        alloc: Global,
        size: u32,
        plan: &[u32],
        records: &[(RecordKey, Bytes)],
    ) -> Result<(), OutOfMemory>
        requires size { IsBlockSize size }
        requires fresh { self.old ≡ unwritten self.old.layout }
        requires records { All IsRecord records.now }
        requires enough { total_charge size records.now + length self.old.layout.directory ≤ length plan.now }
        requires plan { length plan.now < 2 ^ 32 }
        requires room { (pool : ℕ) × CanPrepareWhole size pool records.now plan.now self.old.layout }
        ensures { OnOk result (PreparedWhole size plan.now records.now self.old.layout self.new) }
    {
        self.put_records(alloc, size, plan, records)?;
        self.freshen_all(alloc, size, plan)
    }

    /// A draft of a whole content, over a directory with these numbers and slots of which no page is written yet. It writes
    /// whole pages.
    pub fn unwritten(alloc: Global, directory: Vec<u32>, table: Table) -> Result<Draft, OutOfMemory>
        ensures { IfOk result (λ d. d ≡ unwritten (record { directory = directory.items; slots = table })) }
    {
        let stale = StalePages::all(alloc, directory.len())?;
        Ok(Draft::begun(alloc, directory, table, stale, 0))
    }

    // Nothing is prepared yet. It takes no memory.
    fn begun(
        alloc: Global,
        directory: Vec<u32>,
        table: Table,
        stale: StalePages,
        long: u64,
    ) -> Draft
        ensures { result ≡ record (unprepared long (record { directory = directory.items; slots = table })) { stale = stale } }
    {
        Draft {
            directory,
            table: TableDraft::new(alloc, table),
            stale,
            writes: Vec::new(alloc),
            taken: 0,
            freed: Vec::new(alloc),
            long,
        }
    }

    /// A draft that begins from the layout of a directory with these pages and slots, in a file that has `long` bytes: of a
    /// record's page that lies within them, it writes no more than what the page says. It takes no memory.
    pub fn new(alloc: Global, directory: Vec<u32>, table: Table, long: u64) -> Draft
        ensures { result ≡ unprepared long (record { directory = directory.items; slots = table }) }
    {
        let stale = StalePages::none(alloc, directory.len());
        Draft::begun(alloc, directory, table, stale, long)
    }

    /// The slots as they were before. It takes no memory, and costs as much as the changes did.
    pub fn back(self) -> Table
        ensures { result ≡ self.before }
    {
        self.table.back()
    }

    /// Its parts. It takes no memory.
    pub fn into_parts(self) -> DraftParts
        ensures directory { result.directory.items ≡ self.layout.directory }
        ensures table { result.table ≡ record { slots = self.layout.slots; before = self.before } }
        ensures writes { result.writes.items ≡ self.writes }
        ensures taken { result.taken ≡ self.taken }
        ensures freed { result.freed.items ≡ self.freed }
    {
        DraftParts {
            directory: self.directory,
            table: self.table,
            writes: self.writes,
            taken: self.taken,
            freed: self.freed,
        }
    }
}
