//! The gate of the half that is mended, its first byte.
ghost use Rattle.std.specs.Prelude.{◌≡◌, ◌≤◌, ◌⊎◌, ◌+◌, ◌^◌, ℕ, List, IsTrue, Bool, true, false, length, min, IfOk, OnOk, IsErrOf};
ghost use Rattle.kd_device.specs.Device.{Rose, Torn, written};
ghost use Rattle.kd_device.specs.Twin.{Both, other, disk_of};
ghost use Rattle.kdcfile_layout.specs.Gates.{IsShut};
ghost use Rattle.kdcfile_copies.specs.Mending.{BothRest, Goes, Mends, HasShutGate, HasNoShutGate, IsGate};

use crate::kdcfile_mending::error::CopyError;
use crate::kdcfile_mending::synced::put_synced;
use kd_device::{Half, Twin};

const CLOSED: u8 = 0;

/// The gate of a file that is made.
pub(crate) const OPEN: u8 = 75;

// The gate of the half, if there is one.
fn gate_of<T: Twin>(twin: &mut T, target: Half) -> Result<Option<u8>, CopyError>
    requires at_rest { IsTrue (T.both twin.old).told → BothRest (T.both twin.old) (T.leaves twin.old) }
    ensures value { IfOk result (λ gate. IsTrue (T.both twin.old).told → IsGate gate (disk_of target (T.both twin.old)).holds) }
    ensures no_source { IsErrOf result CopyError.Source → ⊥ }
    ensures failed { IsErrOf result CopyError.Target → Rose (disk_of target (T.both twin.old)).disk_faults (disk_of target (T.both twin.new)).disk_faults }
    ensures fine { (IsErrOf result CopyError.Target → ⊥) → (disk_of target (T.both twin.new)).disk_faults ≡ (disk_of target (T.both twin.old)).disk_faults }
    ensures other_half { disk_of (other target) (T.both twin.new) ≡ disk_of (other target) (T.both twin.old) }
    ensures goes { Goes target (T.both twin.old) (T.both twin.new) }
    ensures place { T.place twin.new ≡ T.place twin.old }
    ensures any_moment { IsTrue (T.both twin.old).told → Mends target (λ c. c ≡ (disk_of target (T.both twin.old)).holds) (T.both twin.old) (T.both twin.new) (T.leaves twin.old) (T.leaves twin.new) }
    ensures holds { IsTrue (T.both twin.old).told → (disk_of target (T.both twin.new)).holds ≡ (disk_of target (T.both twin.old)).holds }
    ensures put { IsTrue (T.both twin.old).told → (disk_of target (T.both twin.new)).put ≡ (disk_of target (T.both twin.old)).put }
    ensures rest { IsTrue (T.both twin.old).told → BothRest (T.both twin.new) (T.leaves twin.new) }
{
    let mut gate = [CLOSED];
    let read = twin.read_at(target, 0, &mut gate)?;
    if read == 1 {
        Ok(Some(gate[0]))
    } else {
        Ok(None)
    }
}

// Whether such a gate stays: one that is there and not open, and none where none is made.
fn stays(gate: Option<u8>, makes: bool) -> bool
    ensures shut { result ≡ true → (file : List ℕ) → IsGate gate file → IsShut file }
    ensures made { result ≡ true → makes ≡ true → (file : List ℕ) → IsGate gate file → HasShutGate file }
    ensures open { result ≡ false → (file : List ℕ) → IsGate gate file → HasNoShutGate file }
{
    match gate {
        Some(byte) => byte != OPEN,
        None => !makes,
    }
}

/// Closes the gate of a half, where it is open. Any other byte stays, since a write that is cut short there could open it;
/// where there is none, a closed one is made if that is asked for.
pub fn shut_gate<T: Twin>(twin: &mut T, target: Half, makes: bool) -> Result<(), CopyError>
    requires at_rest { IsTrue (T.both twin.old).told → BothRest (T.both twin.old) (T.leaves twin.old) }
    ensures no_source { IsErrOf result CopyError.Source → ⊥ }
    ensures failed { IsErrOf result CopyError.Target → Rose (disk_of target (T.both twin.old)).disk_faults (disk_of target (T.both twin.new)).disk_faults }
    ensures fine { (IsErrOf result CopyError.Target → ⊥) → (disk_of target (T.both twin.new)).disk_faults ≡ (disk_of target (T.both twin.old)).disk_faults }
    ensures other_half { disk_of (other target) (T.both twin.new) ≡ disk_of (other target) (T.both twin.old) }
    ensures goes { Goes target (T.both twin.old) (T.both twin.new) }
    ensures place { T.place twin.new ≡ T.place twin.old }
    ensures any_moment { IsTrue (T.both twin.old).told → Mends target (λ c. (c ≡ (disk_of target (T.both twin.old)).holds) ⊎ IsShut c) (T.both twin.old) (T.both twin.new) (T.leaves twin.old) (T.leaves twin.new) }
    ensures put_most { IsTrue (T.both twin.old).told → (disk_of target (T.both twin.new)).put ≤ (disk_of target (T.both twin.old)).put + 1 }
    ensures shut { OnOk result (IsTrue (T.both twin.old).told → IsShut (disk_of target (T.both twin.new)).holds) }
    ensures made { OnOk result (IsTrue (T.both twin.old).told → makes ≡ true → HasShutGate (disk_of target (T.both twin.new)).holds) }
    ensures rest { OnOk result (IsTrue (T.both twin.old).told → BothRest (T.both twin.new) (T.leaves twin.new)) }
{
    let gate = gate_of(twin, target)?;
    if stays(gate, makes) {
        return Ok(());
    }
    put_synced(twin, target, 0, &[CLOSED])
}
