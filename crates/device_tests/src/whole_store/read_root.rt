//! The root at the front of an image.
ghost use Rattle.std.specs.Prelude.{◌≡◌, ◌≤◌, length, take, IfSome};
ghost use Rattle.device_tests.specs.Reading.{is_root, root_of};

use crate::whole_store::image::Root;
use kdcfile_layout::{u32_in, u64_in};

/// The length of a root.
pub const ROOT_LEN: usize = 64;

// Whether PGPOOL is there once more, no directory, and the mark.
fn is_root(image: &[u8], pages: u32) -> bool
    requires { 64 ≤ length image.now }
    ensures { result ≡ is_root pages image.now }
{
    let (_, behind) = image.split_at(60);
    let (mark, _) = behind.split_at(4);
    u32_in(image, 48) == pages && u32_in(image, 52) == 0 && mark == b"ROOT".as_slice()
}

fn fingerprint_of(image: &[u8]) -> [u8; 32]
    requires { 64 ≤ length image.now }
    ensures { result ≡ take 32 image.now }
{
    let mut fingerprint = [0; 32];
    let (front, _) = image.split_at(32);
    fingerprint.copy_from_slice(front);
    fingerprint
}

/// The root of an image in a file of so many pages, where there is one.
pub fn root_of(image: &[u8], pages: u32) -> Option<Root>
    ensures value { result ≡ root_of pages image.now }
    ensures fingerprint { IfSome result (λ r. length r.fingerprint ≡ 32) }
    ensures pages { IfSome result (λ r. r.pgpool ≡ pages) }
    ensures long { IfSome result (λ r. 64 ≤ length image.now) }
{
    if image.len() < ROOT_LEN || !is_root(image, pages) {
        return None;
    }
    Some(Root {
        fingerprint: fingerprint_of(image),
        clock: u64_in(image, 32),
        next_job: u64_in(image, 40),
        pgpool: pages,
        records: u32_in(image, 56),
    })
}
