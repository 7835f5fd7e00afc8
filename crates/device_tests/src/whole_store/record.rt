//! The records after a root.
ghost use Rattle.std.specs.Prelude.{◌≡◌, ◌≤◌, ◌+◌, None, IfOk, IfSome, length};
ghost use Rattle.device_tests.specs.Reading.{comes_after, record_at, records_of};
ghost use Rattle.kdcfile_layout.specs.Fields.{key_at};

use kd_base::{Bytes, OutOfMemory};
use kd_records::{RecordKey, Records};
use kdcfile_layout::u32_in;
use std::alloc::Global;

/// The length of a record without its value.
const RECORD_LEN: usize = 29;

// Whether a key may be after another.
fn comes_after(previous: &Option<RecordKey>, key: &RecordKey) -> bool
    ensures { result ≡ comes_after previous.now key.now }
{
    match previous {
        None => true,
        Some(before) => before.compared(key).is_lt(),
    }
}

// The key at the front.
fn key_at(left: &[u8]) -> RecordKey
    requires { 29 ≤ length left.now }
    ensures { result ≡ key_at left.now }
{
    let (_, behind) = left.split_at(1);
    let (front, _) = behind.split_at(24);
    let mut bytes = [0; 24];
    bytes.copy_from_slice(front);
    RecordKey {
        kind: left[0],
        bytes,
    }
}

#[tactic(auto, unfolding(crate::specs::Reading::record_at))]
// The record at the front.
fn record_at(alloc: Global, left: &[u8]) -> Result<Option<(RecordKey, Bytes)>, OutOfMemory>
    ensures value { IfOk result (λ found. found ≡ record_at left.now) }
    ensures long { IfOk result (λ found. IfSome found (λ r. 29 + length r.1 ≤ length left.now)) }
{
    if left.len() < RECORD_LEN || left[0] == 0 {
        return Ok(None);
    }
    let len = u32_in(left, 25) as usize;
    if left.len() < RECORD_LEN + len {
        return Ok(None);
    }
    let (_, behind) = left.split_at(RECORD_LEN);
    let (value, _) = behind.split_at(len);
    Ok(Some((key_at(left), Bytes::from_slice(alloc, value)?)))
}

/// So many records, whose keys ascend, from the front of the bytes.
pub fn records_of(alloc: Global, count: u32, image: &[u8]) -> Result<Option<Records>, OutOfMemory>
    ensures { IfOk result (λ found. found ≡ records_of None count image.now) }
{
    let mut records = Records::new(alloc);
    let mut previous = None;
    let mut left = image;
    for _ in 0..count {
        let Some((key, value)) = record_at(alloc, left)? else {
            return Ok(None);
        };
        if !comes_after(&previous, &key) {
            return Ok(None);
        }
        let (_, rest) = left.split_at(RECORD_LEN + value.len());
        records.push((key, value))?;
        previous = Some(key);
        left = rest;
    }
    Ok(Some(records))
}
