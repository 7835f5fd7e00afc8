//! The root of the selected image, and the numbers of the directory's pages.
ghost use Rattle.std.specs.Prelude.{◌≡◌, ◌≤◌, ◌*◌, length, take, IfSome, IfOk};
ghost use Rattle.kd_records.specs.Charge.{IsBlockSize};
ghost use Rattle.kdcfile_layout.specs.Fields.{AreBytes};
ghost use Rattle.kdcfile_layout.specs.Reading.{is_pool, is_root, fields_of, root_of, numbers_of};

use crate::page_pool::Pages;
use crate::{directory_pages, u32_in, u64_in};
use kd_base::OutOfMemory;
use std::alloc::Global;

/// The length of a root without the numbers of the directory's pages.
pub const ROOT_LEN: usize = 64;

/// What a root says: the fingerprint of the texts that the file was generated from, the clock in ticks, the next job
/// number, PGPOOL in pages from 16 to 30,000, and the number of records.
#[derive(Clone, Copy)]
pub struct RootFields {
    pub fingerprint: [u8; 32],
    pub clock: u64,
    pub next_job: u64,
    pub pgpool: u32,
    pub records: u32,
}

fn is_pool(pgpool: u32) -> bool
    ensures { result ≡ is_pool pgpool }
{
    16 <= pgpool && pgpool <= 30_000
}

// Whether PGPOOL, the number of directory pages and the mark are those of a root.
fn is_root(size: u32, bytes: &[u8]) -> bool
    requires block { IsBlockSize size }
    requires long { 64 ≤ length bytes.now }
    ensures { result ≡ is_root size bytes.now }
{
    let pgpool = u32_in(bytes, 48);
    let (_, rest) = bytes.split_at(60);
    let (mark, _) = rest.split_at(4);
    is_pool(pgpool)
        && u32_in(bytes, 52) == directory_pages(size, pgpool)
        && mark == b"ROOT".as_slice()
}

fn fingerprint_of(bytes: &[u8]) -> [u8; 32]
    requires { 64 ≤ length bytes.now }
    ensures { result ≡ take 32 bytes.now }
{
    let mut fingerprint = [0; 32];
    let (front, _) = bytes.split_at(32);
    fingerprint.copy_from_slice(front);
    fingerprint
}

/// The root at the front of these bytes, in a file with blocks of `size` bytes, where there is one.
pub fn root_of(bytes: &[u8], size: u32) -> Option<RootFields>
    requires block { IsBlockSize size }
    ensures value { result ≡ root_of size bytes.now }
    ensures fingerprint { IfSome result (λ r. length r.fingerprint ≡ 32) }
    ensures least { IfSome result (λ r. 16 ≤ r.pgpool) }
    ensures most { IfSome result (λ r. r.pgpool ≤ 30000) }
    ensures bytes { AreBytes bytes.now }
{
    if bytes.len() < ROOT_LEN || !is_root(size, bytes) {
        return None;
    }
    Some(RootFields {
        fingerprint: fingerprint_of(bytes),
        clock: u64_in(bytes, 32),
        next_job: u64_in(bytes, 40),
        pgpool: u32_in(bytes, 48),
        records: u32_in(bytes, 56),
    })
}

/// So many page numbers from the front, if the bytes are enough.
pub fn numbers_of(alloc: Global, bytes: &[u8], count: u32) -> Result<Option<Pages>, OutOfMemory>
    ensures value { IfOk result (λ o. o ≡ numbers_of count bytes.now) }
    ensures bytes { AreBytes bytes.now }
{
    let mut numbers = Pages::new(alloc);
    let mut left = bytes;
    for _ in 0..count {
        if left.len() < 4 {
            return Ok(None);
        }
        let (_, rest) = left.split_at(4);
        numbers.push(u32_in(left, 0))?;
        left = rest;
    }
    Ok(Some(numbers))
}
