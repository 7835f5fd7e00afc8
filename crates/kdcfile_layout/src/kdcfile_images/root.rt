//! A root as bytes.
ghost use Rattle.std.specs.Prelude.{◌≡◌, ◌<◌, ◌≤◌, ◌+◌, ◌^◌, ◌++◌, length, take, drop, IfOk};
ghost use Rattle.std.specs.List.{flat_map};
ghost use Rattle.std.specs.Int.{w32, to_be_bytes};
ghost use Rattle.kdcfile_layout.specs.Commit.{spelled_root};

use crate::kdcfile_images::image::Root;
use crate::spell::add_zeros;
use kd_base::{Bytes, OutOfMemory};
use std::alloc::Global;

/// The length of a root without the numbers of the directory's pages.
const ROOT_LEN: usize = 64;

// Puts four bytes over those from a place on.
fn put_four(to: &mut Vec<u8>, at: usize, four: [u8; 4])
    requires { at + 4 ≤ length to.old.items }
    ensures { to.new.items ≡ take at to.old.items ++ four ++ drop (at + 4) to.old.items }
{
    to[at] = four[0];
    to[at + 1] = four[1];
    to[at + 2] = four[2];
    to[at + 3] = four[3];
}

/// The bytes with page numbers after them, in four bytes each. The room is made once, and the numbers are put over it.
fn with_numbers(head: Bytes, pages: &[u32]) -> Result<Bytes, OutOfMemory>
    requires { length pages.now < 2 ^ 32 }
    ensures { IfOk result (λ b. b ≡ head ++ flat_map (λ p. to_be_bytes w32 p) pages.now) }
{
    let from = head.len();
    let mut bytes = head.into_vec();
    add_zeros(&mut bytes, 4 * pages.len())?;
    for n in 0..pages.len() {
        put_four(&mut bytes, from + 4 * n, pages[n].to_be_bytes());
    }
    Ok(Bytes::from_vec(bytes))
}

/// The 64 bytes of a root, and the numbers of the directory's pages.
pub fn root_bytes(alloc: Global, root: &Root) -> Result<Bytes, OutOfMemory>
    requires { length root.now.directory < 2 ^ 32 }
    ensures { IfOk result (λ b. b ≡ spelled_root root.now) }
{
    let len = ROOT_LEN + 4 * root.directory.len();
    let mut out = Bytes::from_vec(Vec::with_capacity(alloc, len)?);
    out.append(&root.fingerprint)?;
    out.put_u64(root.clock)?;
    out.put_u64(root.next_job)?;
    out.put_u32(root.pgpool)?;
    out.put_u32(root.directory.len() as u32)?;
    out.put_u32(root.records)?;
    out.append(b"ROOT")?;
    with_numbers(out, root.directory.as_slice())
}
