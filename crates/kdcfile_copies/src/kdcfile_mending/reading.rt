//! Calls that read a half, for the half that is mended.
ghost use Rattle.std.specs.Prelude.{◌≡◌, ◌≤◌, ◌<◌, ◌+◌, ◌^◌, ℕ, List, IsTrue, length, take, drop, min, IfOk, OnOk, IsErrOf};
ghost use Rattle.kd_device.specs.Device.{Rose, Torn, written};
ghost use Rattle.kd_device.specs.Twin.{Both, other, disk_of};
ghost use Rattle.kdcfile_copies.specs.Mending.{BothRest, Goes, Mends};

use crate::kdcfile_mending::error::CopyError;
use kd_base::OutOfMemory;
use kd_device::{Half, Twin};
use std::alloc::Global;

/// The other one of two halves.
pub(crate) fn other_half(half: Half) -> Half
    ensures { result ≡ other half }
{
    match half {
        Half::First => Half::Second,
        Half::Second => Half::First,
    }
}

// So many zero bytes.
fn zero_bytes(alloc: Global, len: usize) -> Result<Vec<u8>, OutOfMemory>
    ensures { IfOk result (λ v. length v.items ≡ len) }
{
    Ok(vec![in alloc; 0; len]?)
}

/// The length of the half that is copied to the target.
pub(crate) fn source_len<T: Twin>(twin: &mut T, target: Half) -> Result<u64, CopyError>
    requires at_rest { IsTrue (T.both twin.old).told → BothRest (T.both twin.old) (T.leaves twin.old) }
    ensures value { IfOk result (λ n. IsTrue (T.both twin.old).told → n ≡ length (disk_of (other target) (T.both twin.old)).holds) }
    ensures no_target { IsErrOf result CopyError.Target → ⊥ }
    ensures failed { IsErrOf result CopyError.Source → Rose (disk_of (other target) (T.both twin.old)).disk_faults (disk_of (other target) (T.both twin.new)).disk_faults }
    ensures fine { (IsErrOf result CopyError.Source → ⊥) → (disk_of (other target) (T.both twin.new)).disk_faults ≡ (disk_of (other target) (T.both twin.old)).disk_faults }
    ensures other_half { disk_of target (T.both twin.new) ≡ disk_of target (T.both twin.old) }
    ensures goes { Goes target (T.both twin.old) (T.both twin.new) }
    ensures place { T.place twin.new ≡ T.place twin.old }
    ensures any_moment { IsTrue (T.both twin.old).told → Mends target (λ c. c ≡ (disk_of target (T.both twin.old)).holds) (T.both twin.old) (T.both twin.new) (T.leaves twin.old) (T.leaves twin.new) }
    ensures rest { IsTrue (T.both twin.old).told → BothRest (T.both twin.new) (T.leaves twin.new) }
{
    match twin.size(other_half(target)) {
        Ok(len) => Ok(len),
        Err(_) => Err(CopyError::Source),
    }
}

/// So many bytes of the half that is copied to the target, as far as it goes.
pub(crate) fn source_piece<T: Twin>(
    alloc: Global,
    twin: &mut T,
    target: Half,
    at: u64,
    len: usize,
) -> Result<Vec<u8>, CopyError>
    requires at_rest { IsTrue (T.both twin.old).told → BothRest (T.both twin.old) (T.leaves twin.old) }
    ensures value { IfOk result (λ piece. IsTrue (T.both twin.old).told → piece.items ≡ take len (drop at (disk_of (other target) (T.both twin.old)).holds)) }
    ensures bound { IfOk result (λ piece. length piece.items ≤ len) }
    ensures no_target { IsErrOf result CopyError.Target → ⊥ }
    ensures failed { IsErrOf result CopyError.Source → Rose (disk_of (other target) (T.both twin.old)).disk_faults (disk_of (other target) (T.both twin.new)).disk_faults }
    ensures fine { (IsErrOf result CopyError.Source → ⊥) → (disk_of (other target) (T.both twin.new)).disk_faults ≡ (disk_of (other target) (T.both twin.old)).disk_faults }
    ensures other_half { disk_of target (T.both twin.new) ≡ disk_of target (T.both twin.old) }
    ensures goes { Goes target (T.both twin.old) (T.both twin.new) }
    ensures place { T.place twin.new ≡ T.place twin.old }
    ensures any_moment { IsTrue (T.both twin.old).told → Mends target (λ c. c ≡ (disk_of target (T.both twin.old)).holds) (T.both twin.old) (T.both twin.new) (T.leaves twin.old) (T.leaves twin.new) }
    ensures rest { IsTrue (T.both twin.old).told → BothRest (T.both twin.new) (T.leaves twin.new) }
{
    let mut piece = zero_bytes(alloc, len)?;
    let Ok(read) = twin.read_at(other_half(target), at, piece.as_mut_slice()) else {
        return Err(CopyError::Source);
    };
    piece.truncate(read);
    Ok(piece)
}
