//! A table of slots that is being changed, and that can be taken back.
ghost use Rattle.std.specs.Prelude.{◌≡◌, ◌<◌, ◌≤◌, ◌+◌, ◌++◌, ℕ, Some, None, length, get_or, set, IfSome, IfNone, IfOk, OnOk, vec_len, vec_capacity};
ghost use Rattle.kdcfile_layout.specs.declared.chain.Chain.{Chain as ChainIs};
ghost use Rattle.kdcfile_layout.specs.Places.{At};
ghost use Rattle.kdcfile_layout.specs.Layout.{used};
ghost use Rattle.page_drafts.specs.Tables.{HasKey, IsPlaceFor, IsAbsent, pages_in};

use crate::parts::{TableParts, Undo, forget, place_in, take_back};
use crate::table::Table;
use kd_base::OutOfMemory;
use kd_records::RecordKey;
use kdcfile_layout::Chain;
use std::alloc::Global;
use std::marker::Model;
use std::mem;

/// A table with changes made in it, and what takes them back. Contracts see the slots as they are now, and as they were
/// before.
#[derive(Drop)]
pub struct TableDraft {
    parts: TableParts,
    undo: Vec<Undo>,
}

impl Model for TableDraft {
    ghost use Rattle.std.specs.Prelude.{◌≤◌, ◌+◌, vec_len, vec_capacity};
    ghost use Rattle.page_drafts.specs.Undoing.{Changing, IsChanging, parts_of, undone_all};

    ghost Value = { Changing };

    ghost view = { λ d. record { slots = d.parts.slots.items; before = (undone_all d.undo.items (parts_of d.parts)).slots } };

    ghost invariant = { λ d. IsChanging (parts_of d.parts) d.undo.items × (vec_len d.parts.free + vec_len d.undo ≤ vec_capacity d.parts.free) };
}

// Room for one more change, and for taking all of them back.
fn make_room(free: &mut Vec<u32>, undo: &mut Vec<Undo>) -> Result<(), OutOfMemory>
    requires { vec_len free.old + vec_len undo.old ≤ vec_capacity free.old }
    ensures free { free.new.items ≡ free.old.items }
    ensures undo { undo.new.items ≡ undo.old.items }
    ensures free_len { vec_len free.new ≡ vec_len free.old }
    ensures undo_len { vec_len undo.new ≡ vec_len undo.old }
    ensures kept { vec_len free.new + vec_len undo.new ≤ vec_capacity free.new }
    ensures ok { OnOk result ((vec_len free.new + vec_len undo.new + 2 ≤ vec_capacity free.new) × (vec_len undo.new < vec_capacity undo.new)) }
{
    undo.reserve(1)?;
    free.reserve(undo.len() + 2)?;
    Ok(())
}

impl TableDraft {
    /// A table with no change made yet. It takes no memory.
    pub fn new(alloc: Global, table: Table) -> TableDraft
        ensures { result ≡ record { slots = table; before = table } }
    {
        TableDraft {
            parts: table.into_parts(),
            undo: Vec::new(alloc),
        }
    }

    /// The slots as they are now, without a copy.
    pub fn slots(&self) -> &[Option<Chain>]
        ensures { result.now ≡ self.now.slots }
    {
        self.parts.slots.as_slice()
    }

    // The pages of the chain in a slot.
    fn pages_at(&self, place: usize) -> &[u32]
        requires { place < length self.now.slots }
        ensures { result.now ≡ pages_in (get_or self.now.slots place None) }
    {
        match &self.parts.slots[place] {
            Some(chain) => chain.pages.as_slice(),
            None => &[],
        }
    }

    // A chain in place of the one with its key.
    fn replace(&mut self, place: u32, chain: Chain) -> Result<(), OutOfMemory>
        requires { HasKey self.old.slots place chain.key }
        ensures ok { OnOk result (self.new.slots ≡ set self.old.slots place (Some chain)) }
        ensures before { self.new.before ≡ self.old.before }
    {
        make_room(&mut self.parts.free, &mut self.undo)?;
        let old = mem::replace(&mut self.parts.slots[place as usize], Some(chain));
        match old {
            Some(old) => self.undo.push_reserved(Undo::Replaced(place, old)),
            None => unreachable!(),
        }
        Ok(())
    }

    // A chain in a free slot.
    fn add(&mut self, chain: Chain) -> Result<u32, OutOfMemory>
        requires absent { IsAbsent chain.key self.old.slots }
        requires room { used self.old.slots < length self.old.slots }
        ensures place { IfOk result (λ s. IsPlaceFor chain.key s self.old.slots) }
        ensures ok { IfOk result (λ s. self.new.slots ≡ set self.old.slots s (Some chain)) }
        ensures before { self.new.before ≡ self.old.before }
    {
        make_room(&mut self.parts.free, &mut self.undo)?;
        let key = chain.key;
        let place = self.parts.free[self.parts.free.len() - 1];
        let was = self.parts.index.get(&key).copied();
        self.parts.index.put(key, place)?;
        self.parts.free.pop();
        self.parts.slots[place as usize] = Some(chain);
        self.undo.push_reserved(Undo::Added(place, key, was));
        Ok(place)
    }

    /// Gives its key this chain, in the slot that it has or in a free one, and answers the slot. The pages of the chain
    /// that was there are added to the freed ones.
    pub fn put(&mut self, chain: Chain, freed: &mut Vec<u32>) -> Result<usize, OutOfMemory>
        requires room { IsAbsent chain.key self.old.slots → used self.old.slots < length self.old.slots }
        ensures place { IfOk result (λ s. IsPlaceFor chain.key s self.old.slots) }
        ensures ok { IfOk result (λ s. self.new.slots ≡ set self.old.slots s (Some chain)) }
        ensures freed { IfOk result (λ s. freed.new.items ≡ freed.old.items ++ pages_in (get_or self.old.slots s None)) }
        ensures before { self.new.before ≡ self.old.before }
    {
        match place_in(&self.parts, &chain.key) {
            Some(place) => {
                freed.extend_from_slice(self.pages_at(place as usize))?;
                self.replace(place, chain)?;
                Ok(place as usize)
            }
            None => Ok(self.add(chain)? as usize),
        }
    }

    /// Frees the slot of a key, if it has one, and answers it. The pages of the chain that was there are added to the freed
    /// ones.
    pub fn remove(
        &mut self,
        key: &RecordKey,
        freed: &mut Vec<u32>,
    ) -> Result<Option<usize>, OutOfMemory>
        ensures place { IfOk result (λ r. IfSome r (λ s. IsPlaceFor key.now s self.old.slots)) }
        ensures some { IfOk result (λ r. IfSome r (λ s. self.new.slots ≡ set self.old.slots s None)) }
        ensures freed { IfOk result (λ r. IfSome r (λ s. freed.new.items ≡ freed.old.items ++ pages_in (get_or self.old.slots s None))) }
        ensures absent { IfOk result (λ r. IfNone r (IsAbsent key.now self.old.slots)) }
        ensures none { IfOk result (λ r. IfNone r (self.new.slots ≡ self.old.slots)) }
        ensures none_freed { IfOk result (λ r. IfNone r (freed.new.items ≡ freed.old.items)) }
        ensures before { self.new.before ≡ self.old.before }
    {
        let Some(place) = place_in(&self.parts, key) else {
            return Ok(None);
        };
        freed.extend_from_slice(self.pages_at(place as usize))?;
        self.free_place(place)?;
        Ok(Some(place as usize))
    }

    // Frees a slot with a record. Its key keeps its place in the index, so that the record can be put back.
    fn free_place(&mut self, place: u32) -> Result<(), OutOfMemory>
        requires { (c : ChainIs) × At self.old.slots place (Some c) }
        ensures ok { OnOk result (self.new.slots ≡ set self.old.slots place None) }
        ensures before { self.new.before ≡ self.old.before }
    {
        make_room(&mut self.parts.free, &mut self.undo)?;
        let old = mem::replace(&mut self.parts.slots[place as usize], None);
        self.parts.free.push_reserved(place);
        match old {
            Some(old) => self.undo.push_reserved(Undo::Removed(place, old)),
            None => unreachable!(),
        }
        Ok(())
    }

    /// The table as it was before. It takes no memory, and costs as much as the changes did.
    pub fn back(self) -> Table
        ensures { result ≡ self.before }
    {
        let mut parts = self.parts;
        let mut undo = self.undo;
        while let Some(last) = undo.pop() {
            take_back(&mut parts, last);
        }
        Table::of_parts(parts)
    }

    /// The table as it is now. It takes no memory, and costs as much as the changes did.
    pub fn done(self) -> Table
        ensures { result ≡ self.slots }
    {
        let mut parts = self.parts;
        let mut undo = self.undo;
        while let Some(last) = undo.pop() {
            forget(&mut parts, last);
        }
        Table::of_parts(parts)
    }
}
