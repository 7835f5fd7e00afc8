//! The slots of a directory in memory, with an index of their keys.
ghost use Rattle.std.specs.Prelude.{◌≡◌, ◌<◌, ◌^◌, ◌++◌, ◌∷◌, [], Some, length, replicate, IfOk, OnOk};
ghost use Rattle.std.specs.FinMap.{put};
ghost use Rattle.kd_records.specs.Keys.{key_cmp};
ghost use Rattle.kdcfile_layout.specs.declared.chain.Chain.{Chain as ChainIs};
ghost use Rattle.kdcfile_layout.specs.Layout.{free_slot};
ghost use Rattle.page_drafts.specs.{Tables.{IsIndexed, IsIndexedTo, IsFreeFrom, HasKeysOnce}, Undoing.{parts_of}};

use crate::parts::TableParts;
use kd_base::OutOfMemory;
use kd_base::sorted_pairs::OrderedMap;
use kd_records::RecordKey;
use kdcfile_layout::{Chain, Slots};
use std::alloc::Global;
use std::marker::Model;

/// Slots, each free or with the chain of a record; no key is in two. Contracts see the list of slots.
#[derive(Drop)]
pub struct Table {
    parts: TableParts,
}

impl Model for Table {
    ghost use Rattle.std.specs.Prelude.{List, [], Option};
    ghost use Rattle.kdcfile_layout.specs.declared.chain.Chain.{Chain};
    ghost use Rattle.page_drafts.specs.Tables.{IsIndexed};
    ghost use Rattle.page_drafts.specs.Undoing.{parts_of};

    ghost Value = { List (Option Chain) };

    ghost view = { λ t. t.parts.slots.items };

    ghost invariant = { λ t. IsIndexed (parts_of t.parts) [] };
}

/// The key and the place, if the slot has a record.
fn add_key(
    index: &mut OrderedMap<RecordKey, u32>,
    slot: &Option<Chain>,
    place: u32,
) -> Result<(), OutOfMemory>
    ensures none { slot.now ≡ free_slot → OnOk result (index.new ≡ index.old) }
    ensures some { (c : ChainIs) → slot.now ≡ Some c → OnOk result (index.new ≡ put key_cmp c.key place index.old) }
{
    match slot {
        None => Ok(()),
        Some(chain) => index.put(chain.key, place),
    }
}

/// The keys of these slots with their places.
fn index_of(
    alloc: Global,
    slots: &[Option<Chain>],
) -> Result<OrderedMap<RecordKey, u32>, OutOfMemory>
    requires once { HasKeysOnce slots.now }
    requires few { length slots.now < 2 ^ 32 }
    ensures { IfOk result (λ index. IsIndexedTo slots.now index (length slots.now)) }
{
    let mut index = OrderedMap::new(alloc);
    for n in 0..slots.len() {
        add_key(&mut index, &slots[n], n as u32)?;
    }
    Ok(index)
}

/// The place, if the slot is free.
fn add_free(free: &mut Vec<u32>, slot: &Option<Chain>, place: u32) -> Result<(), OutOfMemory>
    ensures none { slot.now ≡ free_slot → OnOk result (free.new.items ≡ free.old.items ++ place ∷ []) }
    ensures some { (c : ChainIs) → slot.now ≡ Some c → OnOk result (free.new.items ≡ free.old.items) }
{
    match slot {
        None => Ok(free.push(place)?),
        Some(_) => Ok(()),
    }
}

/// The places of the free slots, from the last one down.
fn free_of(alloc: Global, slots: &[Option<Chain>]) -> Result<Vec<u32>, OutOfMemory>
    requires few { length slots.now < 2 ^ 32 }
    ensures { IfOk result (λ free. IsFreeFrom slots.now free.items 0) }
{
    let mut free = Vec::new(alloc);
    for n in 0..slots.len() {
        let place = slots.len() - 1 - n;
        add_free(&mut free, &slots[place], place as u32)?;
    }
    Ok(free)
}

impl Table {
    /// No slots. It takes no memory.
    pub fn empty(alloc: Global) -> Table
        ensures { result ≡ [] }
    {
        Table {
            parts: TableParts {
                slots: Vec::new(alloc),
                index: OrderedMap::new(alloc),
                free: Vec::new(alloc),
            },
        }
    }

    /// So many slots, all free.
    pub fn new(alloc: Global, count: u32) -> Result<Table, OutOfMemory>
        ensures { IfOk result (λ t. t ≡ replicate count free_slot) }
    {
        let mut slots = Vec::new(alloc);
        let mut free = Vec::new(alloc);
        for n in 0..count {
            slots.push(None)?;
            free.push(count - 1 - n)?;
        }
        Ok(Table {
            parts: TableParts {
                slots,
                index: OrderedMap::new(alloc),
                free,
            },
        })
    }

    /// A table of these slots, in time as a sort of their keys takes.
    pub fn from_slots(alloc: Global, slots: Slots) -> Result<Table, OutOfMemory>
        requires once { HasKeysOnce slots }
        requires few { length slots < 2 ^ 32 }
        ensures { IfOk result (λ t. t ≡ slots) }
    {
        let index = index_of(alloc, slots.as_slice())?;
        let free = free_of(alloc, slots.as_slice())?;
        Ok(Table {
            parts: TableParts {
                slots: slots.into_vec(),
                index,
                free,
            },
        })
    }

    /// A table of parts that belong together. It takes no memory.
    pub(crate) fn of_parts(parts: TableParts) -> Table
        requires { IsIndexed (parts_of parts) [] }
        ensures { result ≡ parts.slots.items }
    {
        Table { parts }
    }

    /// Its parts. It takes no memory.
    pub(crate) fn into_parts(self) -> TableParts
        ensures indexed { IsIndexed (parts_of result) [] }
        ensures slots { result.slots.items ≡ self }
    {
        self.parts
    }
}
