//! Writes to a half that are on its disk before anything else is done.
ghost use Rattle.std.specs.Prelude.{◌≡◌, ◌≤◌, ◌<◌, ◌+◌, ◌^◌, ℕ, List, IsTrue, length, min, OnOk, IsErrOf};
ghost use Rattle.kd_device.specs.Device.{Rose, Torn, written};
ghost use Rattle.kd_device.specs.Twin.{Both, other, disk_of};
ghost use Rattle.kdcfile_copies.specs.Mending.{BothRest, Goes, Mends};

use crate::kdcfile_mending::error::CopyError;
use kd_device::{Half, Twin};

/// Writes these bytes to that half, and syncs it. A stop within it leaves any bytes in their place.
pub(crate) fn put_synced<T: Twin>(
    twin: &mut T,
    target: Half,
    at: u64,
    bytes: &[u8],
) -> Result<(), CopyError>
    requires inside { at + length bytes.now < 2 ^ 64 }
    requires at_rest { IsTrue (T.both twin.old).told → BothRest (T.both twin.old) (T.leaves twin.old) }
    ensures no_source { IsErrOf result CopyError.Source → ⊥ }
    ensures failed { IsErrOf result CopyError.Target → Rose (disk_of target (T.both twin.old)).disk_faults (disk_of target (T.both twin.new)).disk_faults }
    ensures fine { (IsErrOf result CopyError.Target → ⊥) → (disk_of target (T.both twin.new)).disk_faults ≡ (disk_of target (T.both twin.old)).disk_faults }
    ensures other_half { disk_of (other target) (T.both twin.new) ≡ disk_of (other target) (T.both twin.old) }
    ensures goes { Goes target (T.both twin.old) (T.both twin.new) }
    ensures place { T.place twin.new ≡ T.place twin.old }
    ensures any_moment { IsTrue (T.both twin.old).told → Mends target (λ c. Torn (min at (length (disk_of target (T.both twin.old)).holds)) (at + length bytes.now) (disk_of target (T.both twin.old)).holds c) (T.both twin.old) (T.both twin.new) (T.leaves twin.old) (T.leaves twin.new) }
    ensures put_most { IsTrue (T.both twin.old).told → (disk_of target (T.both twin.new)).put ≤ (disk_of target (T.both twin.old)).put + length bytes.now }
    ensures holds { OnOk result (IsTrue (T.both twin.old).told → (disk_of target (T.both twin.new)).holds ≡ written (disk_of target (T.both twin.old)).holds at bytes.now) }
    ensures rest { OnOk result (IsTrue (T.both twin.old).told → BothRest (T.both twin.new) (T.leaves twin.new)) }
{
    let len = bytes.len() as u64;
    twin.reserve(2, len, at + len)?;
    twin.write_at(target, at, bytes)?;
    twin.sync(target)?;
    Ok(())
}
