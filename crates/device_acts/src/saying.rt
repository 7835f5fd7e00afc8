//! One line is sent.
ghost use Rattle.std.specs.Prelude.{◌≡◌, IsTrue, OnOk, IsErrOf};
ghost use Rattle.kd_device.specs.Device.{Rose, Frame, SameFaults, SameNames};
ghost use Rattle.device_acts.specs.Said.{LeavesFront, LeavesSameFile, Said, SaidPart};

use kd_device::{Device, DeviceError};

/// Sends a piece, by one call of the line. A stop within it, and an error, sends a front of it.
pub fn say<D: Device>(device: &mut D, piece: &[u8]) -> Result<(), DeviceError>
    ensures sent { OnOk result (IsTrue (D.state device.old).told → Said piece.now (D.state device.old) (D.state device.new)) }
    ensures part { IsTrue (D.state device.old).told → SaidPart piece.now (D.state device.old) (D.state device.new) }
    ensures unsaid { IsErrOf result DeviceError.Memory → IsTrue (D.state device.old).told → (D.state device.new).sent ≡ (D.state device.old).sent }
    ensures stop { IsTrue (D.state device.old).told → LeavesSameFile (D.state device.old) (D.state device.new) (D.leaves device.old) (D.leaves device.new) }
    ensures any_moment { IsTrue (D.state device.old).told → LeavesFront piece.now (D.state device.old) (D.state device.new) (D.leaves device.old) (D.leaves device.new) }
    ensures failed { IsErrOf result DeviceError.Failed → Rose (D.state device.old).line_faults (D.state device.new).line_faults }
    ensures fine { (IsErrOf result DeviceError.Failed → ⊥) → SameFaults (D.state device.old) (D.state device.new) }
    ensures frame { Frame (D.state device.old) (D.state device.new) }
    ensures names { SameNames (D.state device.old) (D.state device.new) }
{
    device.reserve(1, piece.len() as u64, 0)?;
    device.emit(piece)?;
    Ok(())
}
