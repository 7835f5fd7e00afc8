//! The parts of a table of slots, and what takes one of its changes back.
ghost use Rattle.std.specs.Prelude.{◌≡◌, ◌<◌, ◌≤◌, ◌+◌, ◌++◌, List, Some, true, false, length, IsTrue, IfSome, IfNone, vec_len, vec_capacity};
ghost use Rattle.kd_records.specs.declared.key.RecordKey.{RecordKey as Key};
ghost use Rattle.kdcfile_layout.specs.declared.chain.Chain.{Chain as ChainIs};
ghost use Rattle.page_drafts.specs.{Tables.{HasKey, IsAbsent, IsPlaceFor, IsIndexed}, Undoing.{parts_of, place_of, reverted, undone, gone_by}};

use kd_base::sorted_pairs::OrderedMap;
use kd_records::RecordKey;
use kdcfile_layout::Chain;
use std::mem;

/// Slots, the places of their keys, and the places of the free ones.
pub(crate) struct TableParts {
    pub slots: Vec<Option<Chain>>,
    pub index: OrderedMap<RecordKey, u32>,
    pub free: Vec<u32>,
}

impl Drop for TableParts {
    fn drop(self) {
        let TableParts { slots, index, free } = self;
        let _ = slots;
        let _ = index;
        let _ = free;
    }
}

/// What takes back a change of the slot at a place.
#[derive(Drop)]
pub(crate) enum Undo {
    /// It gets free, and its key has this place in the index again, or none.
    Added(u32, RecordKey, Option<u32>),
    /// It has this chain again.
    Replaced(u32, Chain),
    /// It has this chain again, and is the last of the free ones until then.
    Removed(u32, Chain),
}

// Whether a slot has a record with this key.
fn has_key(slot: &Option<Chain>, key: &RecordKey) -> bool
    ensures found { IsTrue result → (c : ChainIs) × (slot.now ≡ Some c) × (c.key ≡ key.now) }
    ensures none { result ≡ false → (c : ChainIs) → slot.now ≡ Some c → c.key ≡ key.now → ⊥ }
{
    match slot {
        Some(chain) => chain.key.compared(key).is_eq(),
        None => false,
    }
}

/// The slot with this key. The index may have places of keys that have no slot.
pub(crate) fn place_in(parts: &TableParts, key: &RecordKey) -> Option<u32>
    requires { (gone : List Key) × IsIndexed (parts_of parts.now) gone }
    ensures found { IfSome result (λ s. HasKey parts.now.slots.items s key.now) }
    ensures place { IfSome result (λ s. IsPlaceFor key.now s parts.now.slots.items) }
    ensures none { IfNone result (IsAbsent key.now parts.now.slots.items) }
{
    let Some(place) = parts.index.get(key) else {
        return None;
    };
    if has_key(&parts.slots[*place as usize], key) {
        Some(*place)
    } else {
        None
    }
}

// The key has this place in the index again, or none.
fn revert_index(index: &mut OrderedMap<RecordKey, u32>, key: &RecordKey, was: Option<u32>)
    ensures { index.new ≡ reverted key.now was index.old }
{
    match was {
        Some(was) => {
            if let Some(place) = index.get_mut(key) {
                *place = was;
            }
        }
        None => {
            index.remove(key);
        }
    }
}

/// Takes a change back. It takes no memory.
pub(crate) fn take_back(parts: &mut TableParts, change: Undo)
    requires place { place_of change < length parts.old.slots.items }
    requires room { vec_len parts.old.free < vec_capacity parts.old.free }
    ensures parts { parts_of parts.new ≡ undone change (parts_of parts.old) }
    ensures len { vec_len parts.new.free ≤ vec_len parts.old.free + 1 }
    ensures capacity { vec_capacity parts.new.free ≡ vec_capacity parts.old.free }
{
    match change {
        Undo::Added(place, key, was) => {
            parts.slots[place as usize] = None;
            revert_index(&mut parts.index, &key, was);
            parts.free.push_reserved(place);
        }
        Undo::Replaced(place, chain) => {
            parts.slots[place as usize] = Some(chain);
        }
        Undo::Removed(place, chain) => {
            parts.slots[place as usize] = Some(chain);
            parts.free.pop();
        }
    }
}

/// Takes the key of a removed record out of the index, if no slot has it.
pub(crate) fn forget(parts: &mut TableParts, change: Undo)
    requires { (gone : List Key) × IsIndexed (parts_of parts.old) (gone ++ gone_by change) }
    ensures slots { parts.new.slots.items ≡ parts.old.slots.items }
    ensures indexed { (gone : List Key) → IsIndexed (parts_of parts.old) (gone ++ gone_by change) → IsIndexed (parts_of parts.new) gone }
{
    let Undo::Removed(_, chain) = change else {
        return;
    };
    match place_in(parts, &chain.key) {
        Some(_) => {}
        None => {
            parts.index.remove(&chain.key);
        }
    }
}
