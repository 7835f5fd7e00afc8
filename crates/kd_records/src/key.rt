//! The keys of records.
ghost use Rattle.std.specs.Prelude.{◌≡◌};
ghost use Rattle.kd_records.specs.Keys.{key_cmp};

use std::cmp::Ordering;

/// The kind of a row, from 1, and its key, filled with zero bytes. Kind 0 is no record's.
#[derive(Clone, Copy, PartialEq, Eq, PartialOrd, Ord)]
pub struct RecordKey {
    pub kind: u8,
    pub bytes: [u8; 24],
}

impl RecordKey {
    /// How this key compares to another in a file: by kind, then by bytes.
    pub fn compared(&self, other: &RecordKey) -> Ordering
        ensures { result ≡ key_cmp self.now other.now }
    {
        self.cmp(other)
    }
}
