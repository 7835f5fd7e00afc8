//! Reads of a file in memory, and writes to buffers that have the capacity.
ghost use Rattle.std.specs.{Prelude.{◌≡◌, ◌≤◌, ◌<◌, ◌+◌, ◌-◌, ◌++◌, ◌∷◌, [], ℕ, length, take, drop, get_or, replicate, min, if◌then◌else◌}, Vec.{vec_len, vec_capacity}};
ghost use Rattle.kd_device.specs.{Device.{written}, Recording.{IsBehind}};

use crate::call::Span;

// The greatest of these bytes, or 0.
fn greatest(bytes: &[u8]) -> u8
    ensures { (k : ℕ) → get_or bytes.now k 0 ≤ result }
{
    let mut most = 0;
    for byte in bytes {
        most = most.max(*byte);
    }
    most
}

/// The last piece of zero bytes is sought by halves down to this many bytes.
const SMALLEST: usize = 32;

// How many bytes are in front of zero bytes, where the halves at the end are all zero.
fn front_len(bytes: &[u8]) -> usize
    ensures within { result ≤ length bytes.now }
    ensures zeros { bytes.now ≡ take result bytes.now ++ replicate (length bytes.now - result) 0 }
{
    let mut len = bytes.len();
    while len > SMALLEST && greatest(&bytes[len / 2..len]) == 0 {
        len /= 2;
    }
    len
}

/// Puts these bytes after those that are kept, but for zero bytes at their end, and answers where they are.
pub fn keep(kept: &mut Vec<u8>, bytes: &[u8]) -> Span
    requires { vec_len kept.old + length bytes.now ≤ vec_capacity kept.old }
    ensures span { IsBehind kept.old.items bytes.now result }
    ensures items { kept.new.items ≡ kept.old.items ++ take result.len bytes.now }
    ensures len { vec_len kept.new ≤ vec_len kept.old + length bytes.now }
    ensures capacity { vec_capacity kept.old ≤ vec_capacity kept.new }
{
    let len = front_len(bytes);
    let (front, _) = bytes.split_at(len);
    let span = Span {
        from: kept.len(),
        len,
        zeros: bytes.len() - len,
    };
    let _ = kept.extend_from_slice(front);
    span
}

pub fn put<T: Copy>(to: &mut Vec<T>, value: T)
    requires { vec_len to.old < vec_capacity to.old }
    ensures items { to.new.items ≡ to.old.items ++ value ∷ [] }
    ensures len { vec_len to.new ≡ vec_len to.old + 1 }
    ensures capacity { vec_capacity to.old ≤ vec_capacity to.new }
{
    let _ = to.push(value);
}

/// Writes over what is there and past the end, with zero bytes in a gap.
pub fn overwrite(to: &mut Vec<u8>, at: usize, bytes: &[u8])
    requires { at + length bytes.now ≤ vec_capacity to.old }
    ensures items { to.new.items ≡ written to.old.items at bytes.now }
    ensures capacity { vec_capacity to.old ≤ vec_capacity to.new }
{
    if to.len() < at {
        let _ = to.resize(at, 0);
    }
    let over = (to.len() - at).min(bytes.len());
    let (front, back) = bytes.split_at(over);
    to[at..at + over].copy_from_slice(front);
    let _ = to.extend_from_slice(back);
}

pub fn append_if(to: &mut Vec<u8>, more: &[u8], done: bool)
    requires { vec_len to.old + length more.now ≤ vec_capacity to.old }
    ensures items { to.new.items ≡ (if done then to.old.items ++ more.now else to.old.items) }
    ensures len { vec_len to.new ≤ vec_len to.old + length more.now }
    ensures capacity { vec_capacity to.old ≤ vec_capacity to.new }
{
    if done {
        let _ = to.extend_from_slice(more);
    }
}

pub fn overwrite_if(to: &mut Vec<u8>, at: usize, bytes: &[u8], done: bool)
    requires { at + length bytes.now ≤ vec_capacity to.old }
    ensures items { to.new.items ≡ (if done then written to.old.items at bytes.now else to.old.items) }
    ensures capacity { vec_capacity to.old ≤ vec_capacity to.new }
{
    if done {
        overwrite(to, at, bytes);
    }
}

/// Fills the buffer from this place, as far as the file goes, and answers how many bytes that are.
pub fn read_part(file: &[u8], at: u64, into: &mut [u8]) -> usize
    ensures count { result ≡ min (length into.old) (length file.now - at) }
    ensures bytes { into.new ≡ take result (drop at file.now) ++ drop result into.old }
{
    let from = (at as usize).min(file.len());
    let count = (file.len() - from).min(into.len());
    into[..count].copy_from_slice(&file[from..from + count]);
    count
}
