//! The slots of a directory page.
ghost use Rattle.std.specs.Prelude.{◌≡◌, ◌≤◌, length, IfOk, IfSome};
ghost use Rattle.kdcfile_layout.specs.{Fields.{AreBytes, key_at}, Layout.{zeros}};
ghost use Rattle.kdcfile_layout.specs.Slots.{free_slot_of, used_slot_of, slot_of, slots_of};

use crate::u32_in;
use kd_base::{OutOfMemory, Sequence};
use kd_records::RecordKey;
use std::alloc::Global;

/// The length of a slot.
const SLOT_LEN: usize = 32;

/// What a used slot says: the key of a record, and the first page of its chain.
#[derive(Clone, Copy)]
pub struct First {
    pub key: RecordKey,
    pub page: u32,
}

/// Slots in their order, each free or used.
pub type FirstSlots = Sequence<Option<First>>;

// The key at the front.
fn key_at(bytes: &[u8]) -> RecordKey
    requires { 32 ≤ length bytes.now }
    ensures { result ≡ key_at bytes.now }
{
    let (_, rest) = bytes.split_at(1);
    let (front, _) = rest.split_at(24);
    let mut key = [0; 24];
    key.copy_from_slice(front);
    RecordKey {
        kind: bytes[0],
        bytes: key,
    }
}

#[tactic(auto, unfolding(crate::specs::Layout::zeros))]
// The free slot at the front.
fn free_slot_of(bytes: &[u8]) -> Option<Option<First>>
    requires { 32 ≤ length bytes.now }
    ensures { result ≡ free_slot_of bytes.now }
{
    let (front, _) = bytes.split_at(32);
    if front == [0; 32].as_slice() {
        Some(None)
    } else {
        None
    }
}

#[tactic(auto, unfolding(crate::specs::Layout::zeros))]
// The used slot at the front.
fn used_slot_of(bytes: &[u8]) -> Option<Option<First>>
    requires { 32 ≤ length bytes.now }
    ensures { result ≡ used_slot_of bytes.now }
{
    let (_, rest) = bytes.split_at(29);
    let (last, _) = rest.split_at(3);
    if last == [0; 3].as_slice() {
        Some(Some(First {
            key: key_at(bytes),
            page: u32_in(bytes, 25),
        }))
    } else {
        None
    }
}

#[tactic(auto, unfolding(crate::specs::Slots::slot_of))]
// The slot at the front.
fn slot_of(bytes: &[u8]) -> Option<Option<First>>
    ensures value { result ≡ slot_of bytes.now }
    ensures long { IfSome result (λ _. 32 ≤ length bytes.now) }
{
    if bytes.len() < SLOT_LEN {
        return None;
    }
    if bytes[0] == 0 {
        free_slot_of(bytes)
    } else {
        used_slot_of(bytes)
    }
}

/// So many slots from the front of a directory page. `None` where a slot of kind 0 is not 32 zero bytes, a used slot
/// does not end in three zero bytes, or the page is too short.
pub fn slots_of(alloc: Global, page: &[u8], count: u32) -> Result<Option<FirstSlots>, OutOfMemory>
    ensures value { IfOk result (λ o. o ≡ slots_of count page.now) }
    ensures bytes { AreBytes page.now }
{
    let mut slots = FirstSlots::new(alloc);
    let mut left = page;
    for _ in 0..count {
        let Some(slot) = slot_of(left) else {
            return Ok(None);
        };
        let (_, rest) = left.split_at(SLOT_LEN);
        slots.push(slot)?;
        left = rest;
    }
    Ok(Some(slots))
}
