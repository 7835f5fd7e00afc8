//! The digest of what was sent and of the tables.
ghost use Rattle.std.specs.Prelude.{◌≡◌, IfOk};
ghost use Rattle.sha2.specs.Sha256.{sha256};
ghost use Rattle.call_parts.specs.MadeReport.{digested};

use kd_base::OutOfMemory;
use kdcs_types::Tables;
use monitor_parts::output_lines::table_lines;
use sha2::{Digest, Sha256};
use std::alloc::Global;

/// The SHA-256 digest of the number of bytes sent as a big-endian u64, these bytes, and the lines of the tables.
pub fn digest_of(alloc: Global, sent: &[u8], tables: &Tables) -> Result<[u8; 32], OutOfMemory>
    ensures { IfOk result (λ digest. digest ≡ sha256 (digested sent.now tables.now)) }
{
    let lines = table_lines(alloc, tables)?;
    let length = sent.len() as u64;
    let mut hasher = Sha256::new();
    hasher.update(length.to_be_bytes());
    hasher.update(sent);
    hasher.update(lines.as_slice());
    Ok(hasher.finalize())
}
