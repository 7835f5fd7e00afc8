//! Whether two copies are the same.
ghost use Rattle.std.specs.Prelude.{◌≡◌, ◌↔◌, IsTrue};
ghost use Rattle.kdcfile_double.specs.Twice.{AreSame};

use kd_base::Bytes;
use kd_records::{Content, RecordKey};
use kdcfile_copies::LoadedCopy;
use kdcfile_store::PagedStore;

fn same_records(a: &[(RecordKey, Bytes)], b: &[(RecordKey, Bytes)]) -> bool
    ensures { IsTrue result ↔ (a.now ≡ b.now) }
{
    a == b
}

fn same_content(a: &Content, b: &Content) -> bool
    ensures { IsTrue result ↔ (a.now ≡ b.now) }
{
    a.clock == b.clock
        && a.next_job == b.next_job
        && same_records(a.items.as_slice(), b.items.as_slice())
}

// What the files were made with is the same.
fn same_identity(a: &PagedStore, b: &PagedStore) -> bool
    ensures { IsTrue result ↔ (a.now.identity ≡ b.now.identity) }
{
    let one = a.limits();
    let other = b.limits();
    one.blksize == other.blksize
        && one.pgpool == other.pgpool
        && *a.fingerprint() == *b.fingerprint()
}

/// Whether two copies have one sequence, were made with the same, and keep the same.
pub fn are_alike(a: &LoadedCopy, b: &LoadedCopy) -> bool
    ensures { IsTrue result ↔ AreSame a.now b.now }
{
    a.sequence == b.sequence
        && same_identity(&a.store, &b.store)
        && same_content(a.store.kept(), b.store.kept())
}
