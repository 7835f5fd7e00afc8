//! Pages as bytes.
ghost use Rattle.std.specs.Prelude.{◌≡◌, ◌≤◌, ◌<◌, ◌+◌, ◌-◌, ◌*◌, ◌/◌, ◌^◌, ◌++◌, ◌∷◌, [], List, Some, length, take, drop, nat_le, IfOk, OnOk};
ghost use Rattle.std.specs.List.{flat_map};
ghost use Rattle.std.specs.Int.{w32, to_be_bytes};
ghost use Rattle.kd_records.specs.Charge.{IsBlockSize};
ghost use Rattle.kdcfile_layout.specs.Layout.{zeros, free_slot, spelled_slot, directory_text, chain_head, first_of_pages, record_parts, page_place};
ghost use Rattle.kdcfile_layout.specs.Pages.{padded, front_or_whole, part_writes};
ghost use Rattle.kdcfile_layout.specs.declared.chain.Chain.{Chain as ChainIs};

use crate::chain::Chain;
use crate::page::PageWrite;
use kd_base::{Bytes, OutOfMemory};
use kd_records::RecordKey;
use std::alloc::Global;

/// Stands for no page, after the last of a chain.
pub const NO_PAGE: u32 = 0xFFFF_FFFF;

// The length of what is in front of a value's part.
const HEAD_LEN: usize = 48;

/// Where a page begins, in bytes from the beginning of the file.
pub fn page_place(size: u32, page: u32) -> u64
    requires { size ≤ 8192 }
    ensures { result ≡ page_place size page }
{
    24_576 + u64::from(page) * u64::from(size)
}

/// Adds so many zero bytes.
pub(crate) fn add_zeros(to: &mut Vec<u8>, count: usize) -> Result<(), OutOfMemory>
    requires { count < 2 ^ 40 }
    ensures bytes { OnOk result (to.new.items ≡ to.old.items ++ zeros count) }
    ensures length { OnOk result (length to.new.items ≡ length to.old.items + count) }
{
    to.resize(to.len() + count, 0)?;
    Ok(())
}

// Fills a page with zero bytes, unless the file has the page already.
fn pad(page: &mut Vec<u8>, size: u32, there: bool) -> Result<(), OutOfMemory>
    requires size { size ≤ 8192 }
    requires fits { length page.old.items ≤ size }
    ensures { OnOk result (page.new.items ≡ front_or_whole size page.old.items there) }
{
    if there {
        return Ok(());
    }
    let count = size as usize - page.len();
    add_zeros(page, count)
}

// Puts bytes over those from a place on.
fn put_over(to: &mut [u8], at: usize, bytes: &[u8])
    requires { at + length bytes.now ≤ length to.old }
    ensures { to.new ≡ take at to.old ++ bytes.now ++ drop (at + length bytes.now) to.old }
{
    to[at..at + bytes.len()].copy_from_slice(bytes);
}

/// The 48 bytes in front of a value's part: the key, the length of the whole value, the number of the part from 0 on,
/// the next page, and zero bytes.
pub(crate) fn head_bytes(key: &RecordKey, whole: u32, part: u32, next: u32) -> [u8; 48]
    ensures { result ≡ chain_head key.now whole part next }
{
    let mut head = [0; 48];
    head[0] = key.kind;
    put_over(&mut head, 1, &key.bytes);
    put_over(&mut head, 25, &whole.to_be_bytes());
    put_over(&mut head, 29, &part.to_be_bytes());
    put_over(&mut head, 33, &next.to_be_bytes());
    head
}

// A page of a record, with this part of its value: as far as that goes, where the file has the page already.
fn chain_page(
    alloc: Global,
    size: u32,
    there: bool,
    key: &RecordKey,
    whole: u32,
    part: u32,
    next: u32,
    front: &[u8],
) -> Result<Bytes, OutOfMemory>
    requires size { size ≤ 8192 }
    requires fits { 48 + length front.now ≤ size }
    ensures { IfOk result (λ b. b ≡ front_or_whole size (chain_head key.now whole part next ++ front.now) there) }
{
    let room = if there {
        HEAD_LEN + front.len()
    } else {
        size as usize
    };
    let mut out = Vec::with_capacity(alloc, room)?;
    out.extend_from_slice(&head_bytes(key, whole, part, next))?;
    out.extend_from_slice(front)?;
    pad(&mut out, size, there)?;
    Ok(Bytes::from_vec(out))
}

// The first of these pages, or what stands for none.
fn first_page(pages: &[u32]) -> u32
    ensures { result ≡ first_of_pages pages.now }
{
    match pages {
        [] => NO_PAGE,
        [page, ..] => *page,
    }
}

// Whether a file of so many bytes has this page.
fn is_there(size: u32, page: u32, long: u64) -> bool
    requires { size ≤ 8192 }
    ensures { result ≡ nat_le (page_place size page + size) long }
{
    page_place(size, page) + u64::from(size) <= long
}

/// Adds the writes of a record's pages, in a file that has `long` bytes: each has as much of the value as it holds. Of a
/// page that lies within these bytes nothing is written after that; another one is filled with zero bytes.
pub fn put_chain(
    alloc: Global,
    size: u32,
    long: u64,
    chain: &Chain,
    value: &[u8],
    writes: &mut Vec<PageWrite>,
) -> Result<(), OutOfMemory>
    requires size { IsBlockSize size }
    requires value { length value.now < 2 ^ 32 }
    requires pages { length chain.now.pages < 2 ^ 32 }
    ensures { OnOk result (writes.new.items ≡ writes.old.items ++ part_writes size long (record_parts size value.now chain.now)) }
{
    let payload = size as usize - HEAD_LEN;
    let pages = chain.pages.as_slice();
    let mut left = value;
    for part in 0..pages.len() {
        let (front, rest) = left.split_at(payload.min(left.len()));
        let (_, more) = pages.split_at(part + 1);
        let next = first_page(more);
        let bytes = chain_page(
            alloc,
            size,
            is_there(size, pages[part], long),
            &chain.key,
            value.len() as u32,
            part as u32,
            next,
            front,
        )?;
        writes.push(PageWrite {
            at: page_place(size, pages[part]),
            bytes,
        })?;
        left = rest;
    }
    Ok(())
}

// A slot with this key, and the first page of its chain.
fn used_slot(key: &RecordKey, page: u32) -> [u8; 32]
    ensures { result ≡ key.now.kind ∷ (key.now.bytes ++ to_be_bytes w32 page ++ zeros 3) }
{
    let mut slot = [0; 32];
    slot[0] = key.kind;
    slot[1..25].copy_from_slice(&key.bytes);
    slot[25..29].copy_from_slice(&page.to_be_bytes());
    slot
}

#[tactic(auto, unfolding(crate::specs::Layout::spelled_slot))]
// Puts a slot into a page at this place. A free one leaves what is there.
fn put_slot(page: &mut Vec<u8>, at: usize, slot: &Option<Chain>)
    requires there { at + 32 ≤ length page.old.items }
    ensures none { slot.now ≡ free_slot → page.new.items ≡ page.old.items }
    ensures length { (c : ChainIs) → slot.now ≡ Some c → length (spelled_slot slot.now) ≡ 32 }
    ensures some { (c : ChainIs) → slot.now ≡ Some c → page.new.items ≡ take at page.old.items ++ spelled_slot slot.now ++ drop (at + 32) page.old.items }
{
    if let Some(chain) = slot {
        let bytes = used_slot(&chain.key, first_page(chain.pages.as_slice()));
        page[at..at + 32].copy_from_slice(&bytes);
    }
}

#[tactic(auto, unfolding(crate::specs::Layout::zeros))]
/// So many zero bytes.
pub(crate) fn zero_bytes(alloc: Global, count: usize) -> Result<Vec<u8>, OutOfMemory>
    ensures { IfOk result (λ v. v.items ≡ zeros count) }
{
    Ok(vec![in alloc; 0; count]?)
}

// The slots of a directory page, as its bytes.
fn slots_page(alloc: Global, size: u32, slots: &[Option<Chain>]) -> Result<Bytes, OutOfMemory>
    requires size { size ≤ 8192 }
    requires fits { 32 * length slots.now ≤ size }
    ensures bytes { IfOk result (λ b. b ≡ padded size (flat_map spelled_slot slots.now)) }
    ensures fits { OnOk result (length (flat_map spelled_slot slots.now) ≤ size) }
{
    let mut page = zero_bytes(alloc, size as usize)?;
    for n in 0..slots.len() {
        put_slot(&mut page, 32 * n, &slots[n]);
    }
    Ok(Bytes::from_vec(page))
}

/// The k-th page of a directory, from 0 on, with the slots that are its own.
pub fn directory_page(
    alloc: Global,
    size: u32,
    slots: &[Option<Chain>],
    k: usize,
) -> Result<Bytes, OutOfMemory>
    requires size { IsBlockSize size }
    requires there { k * (size / 32) + size / 32 ≤ length slots.now }
    ensures bytes { IfOk result (λ b. b ≡ padded size (directory_text size k slots.now)) }
    ensures fits { OnOk result (length (directory_text size k slots.now) ≤ size) }
{
    let per = size as usize / 32;
    let (_, rest) = slots.split_at(k * per);
    let (own, _) = rest.split_at(per);
    slots_page(alloc, size, own)
}
