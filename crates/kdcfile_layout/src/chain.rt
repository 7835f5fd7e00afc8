//! Where a record is.
ghost use Rattle.std.specs.Prelude.{◌≡◌};

use crate::page_pool::Pages;
use kd_base::Sequence;
use kd_records::RecordKey;

/// The key of a record, and its pages in the order of its parts.
#[derive(Drop)]
pub struct Chain {
    pub key: RecordKey,
    pub pages: Pages,
}

/// The slots of a directory, each free or with the chain of a record.
pub type Slots = Sequence<Option<Chain>>;
