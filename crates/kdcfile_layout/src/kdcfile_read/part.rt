//! A page of a record.
ghost use Rattle.std.specs.Prelude.{◌≡◌, ◌≤◌, ◌+◌, length, IfOk, IfSome};
ghost use Rattle.std.specs.Option.{option_map};
ghost use Rattle.kdcfile_layout.specs.{Chains.{part_of}, Reading.{whole_of}};

use crate::spell::head_bytes;
use crate::u32_in;
use kd_base::{Bytes, OutOfMemory};
use kd_records::RecordKey;
use std::alloc::Global;

/// What a record's page holds: the number of the next page, and the bytes after its head.
#[derive(Drop)]
pub struct Part {
    pub next: u32,
    pub bytes: Bytes,
}

/// The length of the whole value, which the first page of a chain says, if the page is long enough for it.
pub fn whole_of(page: &[u8]) -> Option<u32>
    ensures { result ≡ whole_of page.now }
{
    if page.len() < 29 {
        return None;
    }
    Some(u32_in(page, 25))
}

/// The part of a value on a page, if the page is this part of this record.
pub fn part_of(
    alloc: Global,
    size: u32,
    key: &RecordKey,
    whole: u32,
    part: u32,
    page: &[u8],
) -> Result<Option<Part>, OutOfMemory>
    requires { 48 ≤ size }
    ensures value { IfOk result (λ o. option_map (λ q. (q.next, q.bytes)) o ≡ part_of size key.now whole part page.now) }
    ensures long { IfOk result (λ o. IfSome o (λ q. size ≤ length q.bytes + 48)) }
{
    if page.len() < size as usize {
        return Ok(None);
    }
    let next = u32_in(page, 33);
    let head = head_bytes(key, whole, part, next);
    let (front, rest) = page.split_at(48);
    if front != head.as_slice() {
        return Ok(None);
    }
    Ok(Some(Part {
        next,
        bytes: Bytes::from_slice(alloc, rest)?,
    }))
}
