//! A patch that is made of a content where it stands, and that can be taken back.
ghost use Rattle.std.specs.{Prelude.{◌≡◌, ◌<◌, ◌≤◌, ◌+◌, length, IsTrue, Some, None, IfOk, IfErr, OnOk, vec_len, vec_capacity}, FinMap.{find, is_sorted}};
ghost use Rattle.kd_records.specs.{Keys.{key_cmp}, Contents.{changed, changed_all, patched}};
ghost use Rattle.kd_base.specs.Places.{IsPlace};

use crate::content::{Content, Patch, Records};
use crate::key::RecordKey;
use kd_base::sorted_pairs::place_of;
use kd_base::{Bytes, OutOfMemory};
use std::alloc::Global;
use std::marker::Model;
use std::mem;

/// A content with the changes of a patch made in it, and what takes them back. Contracts see the content as it is now,
/// and as it was before.
#[derive(Drop)]
pub struct PatchedContent {
    clock: u64,
    next_job: u64,
    records: Vec<(RecordKey, Bytes)>,
    old_clock: u64,
    old_next_job: u64,
    undo: Vec<(RecordKey, Option<Bytes>)>,
}

impl Model for PatchedContent {
    ghost use Rattle.std.specs.{Prelude.{◌≤◌, ◌+◌, IsTrue, vec_len, vec_capacity}, FinMap.{is_sorted}};
    ghost use Rattle.kd_records.specs.{Keys.{key_cmp}, InPlace.{Patching, undone}};

    ghost Value = { Patching };

    ghost view = { λ p. record { content = record { clock = p.clock; next_job = p.next_job; items = p.records.items }; before = record { clock = p.old_clock; next_job = p.old_next_job; items = undone p.undo.items p.records.items } } };

    ghost invariant = { λ p. IsTrue (is_sorted key_cmp p.records.items) × (vec_len p.records + vec_len p.undo ≤ vec_capacity p.records) };
}

// Gives a key this value, or none, and answers the value that it had. It takes no memory.
fn change_in_room(
    records: &mut Vec<(RecordKey, Bytes)>,
    key: RecordKey,
    value: Option<Bytes>,
) -> Option<Bytes>
    requires ascending { IsTrue (is_sorted key_cmp records.old.items) }
    requires room { vec_len records.old < vec_capacity records.old }
    ensures items { records.new.items ≡ changed records.old.items (key, value) }
    ensures value { result ≡ find key_cmp key records.old.items }
    ensures len { vec_len records.new ≤ vec_len records.old + 1 }
    ensures capacity { vec_capacity records.old ≤ vec_capacity records.new }
{
    let place = place_of(records.as_slice(), &key);
    match (place, value) {
        (Ok(at), Some(value)) => Some(mem::replace(&mut records[at].1, value)),
        (Ok(at), None) => Some(records.remove(at).1),
        (Err(at), Some(value)) => match records.insert(at, (key, value)) {
            Ok(()) => None,
            Err(_) => unreachable!(),
        },
        (Err(_), None) => None,
    }
}

// A copy of a value, if there is one.
fn value_copy(value: &Option<Bytes>) -> Result<Option<Bytes>, OutOfMemory>
    ensures { IfOk result (λ copy. copy ≡ value.now) }
{
    match value {
        Some(value) => Ok(Some(value.clone()?)),
        None => Ok(None),
    }
}

impl PatchedContent {
    // A content with no change made yet. It takes no memory.
    fn of(alloc: Global, content: Content, patch: &Patch) -> PatchedContent
        requires ascending { IsTrue (is_sorted key_cmp content.items) }
        ensures { result ≡ record { content = record { clock = patch.now.clock; next_job = patch.now.next_job; items = content.items }; before = content } }
    {
        PatchedContent {
            clock: patch.clock,
            next_job: patch.next_job,
            records: content.items.into_vec(),
            old_clock: content.clock,
            old_next_job: content.next_job,
            undo: Vec::new(alloc),
        }
    }

    // One change, for which there will be room to take it back.
    fn change(&mut self, change: &(RecordKey, Option<Bytes>)) -> Result<(), OutOfMemory>
        ensures ok { OnOk result (self.new.content ≡ record self.old.content { items = changed self.old.content.items change.now }) }
        ensures before { self.new.before ≡ self.old.before }
    {
        let value = value_copy(&change.1)?;
        self.undo.reserve(1)?;
        self.records.reserve(self.undo.len() + 2)?;
        let old = change_in_room(&mut self.records, change.0, value);
        self.undo.push_reserved((change.0, old));
        Ok(())
    }

    fn change_all(&mut self, changes: &[(RecordKey, Option<Bytes>)]) -> Result<(), OutOfMemory>
        ensures ok { OnOk result (self.new.content ≡ record self.old.content { items = changed_all self.old.content.items changes.now }) }
        ensures before { self.new.before ≡ self.old.before }
    {
        for one in changes {
            self.change(one)?;
        }
        Ok(())
    }

    /// The clock as it is now, in ticks.
    pub fn clock(&self) -> u64
        ensures { result ≡ self.now.content.clock }
    {
        self.clock
    }

    /// The next job number as it is now.
    pub fn next_job(&self) -> u64
        ensures { result ≡ self.now.content.next_job }
    {
        self.next_job
    }

    /// How many records there are now.
    pub fn len(&self) -> usize
        ensures { result ≡ length self.now.content.items }
    {
        self.records.len()
    }

    /// The content as it was before. It takes no memory, and costs as much as the changes did.
    pub fn back(self) -> Content
        ensures { result ≡ self.before }
    {
        let mut records = self.records;
        let mut undo = self.undo;
        while let Some((key, value)) = undo.pop() {
            change_in_room(&mut records, key, value);
        }
        Content {
            clock: self.old_clock,
            next_job: self.old_next_job,
            items: Records::from_vec(records),
        }
    }

    /// The content as it is now. It takes no memory.
    pub fn done(self) -> Content
        ensures { result ≡ self.content }
    {
        Content {
            clock: self.clock,
            next_job: self.next_job,
            items: Records::from_vec(self.records),
        }
    }
}

impl Content {
    /// Makes the changes of a patch in this content, which can be taken back; gives the content back where memory runs
    /// out. Each change finds its place by binary search, and no record is copied but those that the patch sets; where a
    /// record comes or goes, those behind it move up or down.
    pub fn patch_in_place(self, alloc: Global, patch: &Patch) -> Result<PatchedContent, Content>
        requires ascending { IsTrue (is_sorted key_cmp self.items) }
        ensures ok { IfOk result (λ p. p ≡ record { content = patched self patch.now; before = self }) }
        ensures err { IfErr result (λ content. content ≡ self) }
    {
        let mut patched = PatchedContent::of(alloc, self, patch);
        match patched.change_all(patch.items.as_slice()) {
            Ok(()) => Ok(patched),
            Err(_) => Err(patched.back()),
        }
    }
}
