//! Writes to come.
ghost use Rattle.std.specs.Prelude.{◌≡◌};

use kd_base::Bytes;

/// Bytes for a place in the file, in bytes from its beginning.
#[derive(Drop)]
pub struct PageWrite {
    pub at: u64,
    pub bytes: Bytes,
}
