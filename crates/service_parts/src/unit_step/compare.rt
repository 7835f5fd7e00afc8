//! Comparison, the shorter side filled with spaces.
ghost use Rattle.std.specs.Prelude.{◌≡◌, slice_index_or};
ghost use Rattle.abstract_monitor.specs.Contents.{compared};

use std::cmp::Ordering;

// The byte at this place, a space after the last one.
fn byte_at(bytes: &[u8], i: usize) -> u8
    ensures { result ≡ slice_index_or bytes.now i 32 }
{
    if i < bytes.len() { bytes[i] } else { b' ' }
}

/// Byte by byte, the shorter filled with spaces. It takes no memory.
#[tactic(auto, unfolding(abstract_monitor::specs::Contents::compared))]
pub fn compared(a: &[u8], b: &[u8]) -> Ordering
    ensures { result ≡ compared a.now b.now }
{
    for i in 0..a.len().max(b.len()) {
        let x = byte_at(a, i);
        let y = byte_at(b, i);
        if x != y {
            return x.cmp(&y);
        }
    }
    Ordering::Equal
}
