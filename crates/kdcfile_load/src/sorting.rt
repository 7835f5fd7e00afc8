//! Records in the order of their keys.
ghost use Rattle.std.specs.Prelude.{◌≡◌, List, [], IfSome, IfNone};
ghost use Rattle.kdcfile_load.specs.Gathers.{gathered, AreNew};

use kd_base::sorted_pairs::SortedPairs;
use kd_records::Records;

/// The records in the order of their keys, unless a key is there twice. It takes no memory.
pub fn gather(records: Records) -> Option<Records>
    ensures items { IfSome result (λ items. items ≡ gathered [] records) }
    ensures new { IfSome result (λ _. AreNew [] records) }
    ensures twice { IfNone result (AreNew [] records → ⊥) }
{
    match SortedPairs::from_pairs(records.into_vec()) {
        Some(pairs) => Some(Records::from_vec(pairs.into_vec())),
        None => None,
    }
}
