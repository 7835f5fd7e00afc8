//! The KDCFILE of a BASE is attached and opened.
ghost use Rattle.std.specs.Prelude.{◌≡◌, ◌≤◌, ◌+◌, ◌++◌, ◌∷◌, [], List, ℕ, IsTrue, IfOk, OnOk, IsErrOf};
ghost use Rattle.kd_device.specs.{Device.{Rose, Frame, SameFaults}, Rest.{Rests}};
ghost use Rattle.kdcfile_store.specs.{Kept.{IsKept}, Paged.{HasFile}};
ghost use Rattle.laws_of_states.specs.Suits.{Suits};
ghost use Rattle.device_acts.specs.{Stands.{AreTables, KeepsTables, identity_for}, Opening.{StartsFrom, IsRefused, IsOfOtherTexts, opening_most}};
ghost use Rattle.call_parts.specs.Leaving.{MayAttach, LeavesOpening};

use application_types::generation::Generation;
use device_acts::warm_start::{OpenError, open_tables, read_tables};
use kd_device::Device;
use kdcfile_store::PagedStore;
use kdcs_types::Tables;
use std::alloc::Global;

/// Attaches the file of this name.
pub fn attach<D: Device>(device: &mut D, name: &[u8]) -> Result<(), OpenError>
    ensures rests { IsTrue (D.state device.old).told → Rests (D.state device.old) (D.state device.new) (D.leaves device.old) (D.leaves device.new) }
    ensures names { IsTrue (D.state device.old).told → MayAttach name.now (D.state device.old) (D.state device.new) }
    ensures named { OnOk result (IsTrue (D.state device.old).told → (D.state device.new).names ≡ (D.state device.old).names ++ name.now ∷ []) }
    ensures refused { IsErrOf result OpenError.NotKdcfile → ⊥ }
    ensures other { (stored : List ℕ) → IsErrOf result (OpenError.OtherGeneration stored) → ⊥ }
    ensures fine { (IsErrOf result OpenError.Failed → ⊥) → SameFaults (D.state device.old) (D.state device.new) }
    ensures failed { IsErrOf result OpenError.Failed → Rose (D.state device.old).disk_faults (D.state device.new).disk_faults }
    ensures frame { Frame (D.state device.old) (D.state device.new) }
{
    device.reserve(1, name.len() as u64, 0)?;
    device.attach(name)?;
    Ok(())
}

/// Attaches the file of this name, and opens it for this generation and the texts with this fingerprint.
pub fn open<D: Device>(
    alloc: Global,
    device: &mut D,
    name: &[u8],
    generation: &Generation,
    fingerprint: &[u8; 32],
) -> Result<(PagedStore, Tables), OpenError>
    ensures tables { IfOk result (λ o. KeepsTables (identity_for generation.now fingerprint.now) o.0 o.1) }
    ensures suits { IfOk result (λ o. Suits generation.now o.1) }
    ensures starts { IfOk result (λ o. IsTrue (D.state device.old).told → StartsFrom generation.now fingerprint.now (D.state device.old).holds o.1) }
    ensures kept { IfOk result (λ o. IsTrue (D.state device.old).told → IsKept (HasFile o.0) (D.state device.new) (D.leaves device.new)) }
    ensures refused { IsErrOf result OpenError.NotKdcfile → IsTrue (D.state device.old).told → IsRefused generation.now fingerprint.now (D.state device.old).holds }
    ensures other { (stored : List ℕ) → IsErrOf result (OpenError.OtherGeneration stored) → IsTrue (D.state device.old).told → IsOfOtherTexts stored fingerprint.now (D.state device.old).holds }

    // A file that is not empty stays as it is.
    ensures still { IsTrue (D.state device.old).told → ((D.state device.old).holds ≡ [] → ⊥) → Rests (D.state device.old) (D.state device.new) (D.leaves device.old) (D.leaves device.new) }
    ensures sent { IsTrue (D.state device.old).told → (D.state device.new).sent ≡ (D.state device.old).sent }
    ensures any_moment { LeavesOpening (identity_for generation.now fingerprint.now) (D.state device.old) (D.state device.new) (D.leaves device.old) (D.leaves device.new) }

    ensures put_most { IsTrue (D.state device.old).told → (D.state device.new).put ≤ (D.state device.old).put + opening_most (identity_for generation.now fingerprint.now) (D.state device.old).holds }
    ensures names { IsTrue (D.state device.old).told → MayAttach name.now (D.state device.old) (D.state device.new) }
    ensures named { OnOk result (IsTrue (D.state device.old).told → (D.state device.new).names ≡ (D.state device.old).names ++ name.now ∷ []) }
    ensures fine { (IsErrOf result OpenError.Failed → ⊥) → SameFaults (D.state device.old) (D.state device.new) }
    ensures failed { IsErrOf result OpenError.Failed → Rose (D.state device.old).disk_faults (D.state device.new).disk_faults }
    ensures frame { Frame (D.state device.old) (D.state device.new) }
{
    attach(device, name)?;
    open_tables(alloc, device, generation, fingerprint)
}

/// Attaches the file of this name, and reads the tables that it stands for. It stays as it is, empty too.
pub fn look<D: Device>(
    alloc: Global,
    device: &mut D,
    name: &[u8],
    generation: &Generation,
    fingerprint: &[u8; 32],
) -> Result<Tables, OpenError>
    ensures tables { IfOk result (λ t. AreTables t) }
    ensures suits { IfOk result (λ t. Suits generation.now t) }
    ensures starts { IfOk result (λ t. IsTrue (D.state device.old).told → StartsFrom generation.now fingerprint.now (D.state device.old).holds t) }
    ensures refused { IsErrOf result OpenError.NotKdcfile → IsTrue (D.state device.old).told → IsRefused generation.now fingerprint.now (D.state device.old).holds }
    ensures other { (stored : List ℕ) → IsErrOf result (OpenError.OtherGeneration stored) → IsTrue (D.state device.old).told → IsOfOtherTexts stored fingerprint.now (D.state device.old).holds }
    ensures rests { IsTrue (D.state device.old).told → Rests (D.state device.old) (D.state device.new) (D.leaves device.old) (D.leaves device.new) }
    ensures names { IsTrue (D.state device.old).told → MayAttach name.now (D.state device.old) (D.state device.new) }
    ensures named { OnOk result (IsTrue (D.state device.old).told → (D.state device.new).names ≡ (D.state device.old).names ++ name.now ∷ []) }
    ensures fine { (IsErrOf result OpenError.Failed → ⊥) → SameFaults (D.state device.old) (D.state device.new) }
    ensures failed { IsErrOf result OpenError.Failed → Rose (D.state device.old).disk_faults (D.state device.new).disk_faults }
    ensures frame { Frame (D.state device.old) (D.state device.new) }
{
    attach(device, name)?;
    read_tables(alloc, device, generation, fingerprint)
}
