//! Numbers at their places in bytes, the highest byte first.
ghost use Rattle.std.specs.{Prelude.{◌≡◌, ◌+◌, ◌≤◌, length}, Int.{w32, w64}};
ghost use Rattle.kdcfile_layout.specs.Fields.{number};

use kd_base::Reader;

#[tactic(auto, unfolding(crate::specs::Fields::number))]
/// The number in the four bytes from this place.
pub fn u32_in(bytes: &[u8], at: usize) -> u32
    requires { at + 4 ≤ length bytes.now }
    ensures { result ≡ number w32 at bytes.now }
{
    let (_, rest) = bytes.split_at(at);
    Reader::new(rest).u32_at().unwrap()
}

#[tactic(auto, unfolding(crate::specs::Fields::number))]
/// The number in the eight bytes from this place.
pub fn u64_in(bytes: &[u8], at: usize) -> u64
    requires { at + 8 ≤ length bytes.now }
    ensures { result ≡ number w64 at bytes.now }
{
    let (_, rest) = bytes.split_at(at);
    Reader::new(rest).u64_at().unwrap()
}
