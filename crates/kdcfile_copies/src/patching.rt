//! Patches that set the sequence too, and contents without it.
ghost use Rattle.std.specs.{Prelude.{◌≡◌, IsTrue, IfOk}, FinMap.{is_sorted}};
ghost use Rattle.kd_records.specs.Keys.{key_cmp};
ghost use Rattle.kdcfile_copies.specs.Copies.{sequence_key, sequence_value, bare, next_patch};

use kd_base::sorted_pairs::SortedPairs;
use kd_base::{Bytes, OutOfMemory};
use kd_records::{Content, Patch, PatchItems, RecordKey};
use kdcfile_store::PagedStore;
use std::alloc::Global;

#[tactic(auto, unfolding(crate::specs::Copies::sequence_key))]
/// The key of the sequence.
pub(crate) fn sequence_key() -> RecordKey
    ensures { result ≡ sequence_key }
{
    RecordKey {
        kind: 7,
        bytes: [0; 24],
    }
}

#[tactic(auto, unfolding(crate::specs::Copies::sequence_value))]
fn sequence_value(alloc: Global, sequence: u64) -> Result<Bytes, OutOfMemory>
    ensures { IfOk result (λ value. value ≡ sequence_value sequence) }
{
    Bytes::from_slice(alloc, &sequence.to_be_bytes())
}

/// The patch of a commit that sets the sequence too.
pub fn sequenced(alloc: Global, patch: &Patch, sequence: u64) -> Result<Patch, OutOfMemory>
    requires { IsTrue (is_sorted key_cmp patch.now.items) }
    ensures { IfOk result (λ p. p ≡ next_patch sequence patch.now) }
{
    let mut items = SortedPairs::from_vec(patch.items.as_slice().to_vec(alloc)?);
    let value = sequence_value(alloc, sequence)?;
    items.put(sequence_key(), Some(value))?;
    Ok(Patch {
        clock: patch.clock,
        next_job: patch.next_job,
        items: PatchItems::from_vec(items.into_vec()),
    })
}

/// What a store keeps, without the sequence.
pub fn bare_content(alloc: Global, store: &PagedStore) -> Result<Content, OutOfMemory>
    ensures { IfOk result (λ x. x ≡ bare store.now.content) }
{
    let kept = store.kept();
    let mut items = PatchItems::new(alloc);
    items.push((sequence_key(), None))?;
    let patch = Patch {
        clock: kept.clock,
        next_job: kept.next_job,
        items,
    };
    kept.patched(alloc, &patch)
}
