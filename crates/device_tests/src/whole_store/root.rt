//! A root as bytes.
ghost use Rattle.std.specs.Prelude.{◌≡◌, length, IfOk};
ghost use Rattle.device_tests.specs.Commit.{spelled_root};

use crate::whole_store::image::Root;
use kd_base::{Bytes, OutOfMemory};
use std::alloc::Global;

/// The 64 bytes of a root.
pub fn root_bytes(alloc: Global, root: &Root) -> Result<Bytes, OutOfMemory>
    ensures bytes { IfOk result (λ b. b ≡ spelled_root root.now) }
    ensures length { IfOk result (λ b. length b ≡ 64) }
{
    let mut out = Bytes::new(alloc);
    out.append(&root.fingerprint)?;
    out.put_u64(root.clock)?;
    out.put_u64(root.next_job)?;
    out.put_u32(root.pgpool)?;
    out.put_u32(0)?;
    out.put_u32(root.records)?;
    out.append(b"ROOT")?;
    Ok(out)
}
