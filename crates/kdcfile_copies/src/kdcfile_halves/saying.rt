//! One line is sent.
ghost use Rattle.std.specs.Prelude.{◌≡◌, IsTrue, OnOk, IsErrOf};
ghost use Rattle.kd_device.specs.Device.{Rose, Frame};
ghost use Rattle.kd_device.specs.{declared.half.Half.{Half}, Twin.{half_state}};
ghost use Rattle.kdcfile_copies.specs.Beside.{SameDisk, SaidBoth, SaidPartBoth, LeavesSamePairs, LeavesFrontBoth};

use kd_device::{DeviceError, Twin};

/// Sends a piece, by one call of the line. A stop within it, and an error, sends a front of it.
pub fn say_both<T: Twin>(twin: &mut T, piece: &[u8]) -> Result<(), DeviceError>
    ensures sent { OnOk result (IsTrue (T.both twin.old).told → SaidBoth piece.now (T.both twin.old) (T.both twin.new)) }
    ensures part { IsTrue (T.both twin.old).told → SaidPartBoth piece.now (T.both twin.old) (T.both twin.new) }
    ensures unsaid { IsErrOf result DeviceError.Memory → IsTrue (T.both twin.old).told → (T.both twin.new).sent ≡ (T.both twin.old).sent }
    ensures stop { IsTrue (T.both twin.old).told → LeavesSamePairs (T.both twin.old) (T.both twin.new) (T.leaves twin.old) (T.leaves twin.new) }
    ensures any_moment { IsTrue (T.both twin.old).told → LeavesFrontBoth piece.now (T.both twin.old) (T.both twin.new) (T.leaves twin.old) (T.leaves twin.new) }
    ensures failed { IsErrOf result DeviceError.Failed → Rose (T.both twin.old).line_faults (T.both twin.new).line_faults }
    ensures fine { (IsErrOf result DeviceError.Failed → ⊥) → (T.both twin.new).line_faults ≡ (T.both twin.old).line_faults }
    ensures disks { (half : Half) → SameDisk half (T.both twin.old) (T.both twin.new) }
    ensures frame { (half : Half) → Frame (half_state half (T.both twin.old)) (half_state half (T.both twin.new)) }
{
    twin.reserve(1, piece.len() as u64, 0)?;
    twin.emit(piece)?;
    Ok(())
}
