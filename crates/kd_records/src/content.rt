//! Contents and patches.
ghost use Rattle.std.specs.{Prelude.{◌≡◌, ◌<◌, ◌≤◌, length, drop, IsTrue, IfOk, OnOk, OnErr}, List.{prefix_len}, Ordering.{is_gt}, FinMap.{put}};
ghost use Rattle.kd_records.specs.{Keys.{key_cmp}, Contents.{Record, without, changed, changed_all, patched}, Places.{begins_with_key}};

use crate::key::RecordKey;
use kd_base::{Bytes, OutOfMemory, Sequence};
use std::alloc::Global;

/// Keys with their values.
pub type Records = Sequence<(RecordKey, Bytes)>;

// Puts a record in its place among those of other keys, or changes nothing.
fn set(
    records: &mut Vec<(RecordKey, Bytes)>,
    key: RecordKey,
    value: Bytes,
) -> Result<(), OutOfMemory>
    ensures ok { OnOk result (records.new.items ≡ put key_cmp key value records.old.items) }
    ensures err { OnErr result (records.new.items ≡ records.old.items) }
{
    let place = lesser_in_front(records, &key);
    if has_key_at(records, place, &key) {
        let record = &mut records[place];
        record.1 = value;
    } else {
        records.insert(place, (key, value))?;
    }
    Ok(())
}

fn remove(records: &mut Vec<(RecordKey, Bytes)>, key: &RecordKey)
    ensures { records.new.items ≡ without key.now records.old.items }
{
    records.retain(|record| !key.compared(&record.0).is_eq());
}

// One change of a patch.
fn change(
    records: &mut Vec<(RecordKey, Bytes)>,
    change: &(RecordKey, Option<Bytes>),
) -> Result<(), OutOfMemory>
    ensures { OnOk result (records.new.items ≡ changed records.old.items change.now) }
{
    match &change.1 {
        Some(value) => set(records, change.0, value.clone()?)?,
        None => remove(records, &change.0),
    }
    Ok(())
}

fn change_all(
    records: &mut Vec<(RecordKey, Bytes)>,
    changes: &[(RecordKey, Option<Bytes>)],
) -> Result<(), OutOfMemory>
    ensures { OnOk result (records.new.items ≡ changed_all records.old.items changes.now) }
{
    for one in changes {
        change(records, one)?;
    }
    Ok(())
}

// How many records in front have a lesser key.
fn lesser_in_front(records: &[(RecordKey, Bytes)], key: &RecordKey) -> usize
    ensures lesser { result ≡ prefix_len (λ (r : Record). is_gt (key_cmp key.now r.0)) records.now }
    ensures within { result ≤ length records.now }
{
    let mut n = 0;
    while n < records.len() && key.compared(&records[n].0).is_gt() {
        n += 1;
    }
    n
}

// Whether the record at a place, if any, has this key.
fn has_key_at(records: &[(RecordKey, Bytes)], place: usize, key: &RecordKey) -> bool
    ensures key { result ≡ begins_with_key key.now (drop place records.now) }
    ensures within { IsTrue result → place < length records.now }
{
    place < records.len() && key.compared(&records[place].0).is_eq()
}

/// What a KDCFILE keeps, its fingerprint and sizes apart: the clock in ticks, the next job number, and records in
/// ascending order of their keys without repeats.
#[derive(Drop)]
pub struct Content {
    pub clock: u64,
    pub next_job: u64,
    pub items: Records,
}

impl Content {
    /// The content that a patch makes of this one, with copies of all records. Each change goes through them from the
    /// front; `patch_in_place` costs what the patch changes.
    pub fn patched(&self, alloc: Global, patch: &Patch) -> Result<Content, OutOfMemory>
        ensures { IfOk result (λ x. x ≡ patched self.now patch.now) }
    {
        let mut items = self.items.as_slice().to_vec(alloc)?;
        change_all(&mut items, patch.items.as_slice())?;
        Ok(Content {
            clock: patch.clock,
            next_job: patch.next_job,
            items: Records::from_vec(items),
        })
    }
}

/// Keys with new values, or with none where the record goes.
pub type PatchItems = Sequence<(RecordKey, Option<Bytes>)>;

/// What one commit changes: the new clock and next job number, and records that are set or removed, in ascending
/// order of their keys without repeats.
pub struct Patch {
    pub clock: u64,
    pub next_job: u64,
    pub items: PatchItems,
}

impl Drop for Patch {
    fn drop(self) {
        let Patch {
            clock,
            next_job,
            items,
        } = self;
        let _ = clock;
        let _ = next_job;
        let _ = items;
    }
}
