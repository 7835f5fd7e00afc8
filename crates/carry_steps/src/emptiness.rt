//! Whether a file is empty.
ghost use Rattle.std.specs.Prelude.{◌≡◌, [], true, false, IsTrue, IfOk, OnOk, IsErrOf};
ghost use Rattle.kd_device.specs.{Device.{Rose, Frame, SameFaults, SameNames, Only}, Rest.{Rests}};

use kd_device::{Device, DeviceError};
use kdcfile_layout::bring_to_rest;

/// Whether the file is empty. It stays as it is, and nothing is pending then.
pub fn is_empty<D: Device>(device: &mut D) -> Result<bool, DeviceError>
    ensures value { IfOk result (λ is. IsTrue (D.state device.old).told → (is ≡ true → (D.state device.old).holds ≡ []) × (is ≡ false → (D.state device.old).holds ≡ [] → ⊥)) }
    ensures at_rest { OnOk result (IsTrue (D.state device.old).told → Only (D.state device.new).holds (D.state device.new) (D.leaves device.new)) }
    ensures rests { IsTrue (D.state device.old).told → Rests (D.state device.old) (D.state device.new) (D.leaves device.old) (D.leaves device.new) }
    ensures failed { IsErrOf result DeviceError.Failed → Rose (D.state device.old).disk_faults (D.state device.new).disk_faults }
    ensures fine { (IsErrOf result DeviceError.Failed → ⊥) → SameFaults (D.state device.old) (D.state device.new) }
    ensures frame { Frame (D.state device.old) (D.state device.new) }
    ensures names { SameNames (D.state device.old) (D.state device.new) }
{
    bring_to_rest(device)?;
    let size = device.size()?;
    Ok(size == 0)
}
