//! Writes that are on the disk before anything else is done.
ghost use Rattle.std.specs.Prelude.{◌≡◌, ◌≤◌, ◌+◌, ℕ, List, IsTrue, length, OnOk, OnErr, IsErrOf};
ghost use Rattle.kd_device.specs.{Device.{State, Rose, Frame, SameFaults, SameNames, Only, written}, Rest.{Rests}};
ghost use Rattle.kdcfile_layout.specs.Synced.{UsesAll, WritesOnly, IsSynced};

use kd_device::{Device, DeviceError, Failed};

/// Writes these bytes and syncs. A stop within it leaves any bytes in their place.
pub fn write_synced<D: Device>(device: &mut D, at: u64, bytes: &[u8]) -> Result<(), Failed>
    requires calls { 2 ≤ (D.state device.old).spare_calls }
    requires bytes { length bytes.now ≤ (D.state device.old).spare_bytes }
    requires inside { at + length bytes.now ≤ (D.state device.old).spare_end }
    requires at_rest { IsTrue (D.state device.old).told → Only (D.state device.old).holds (D.state device.old) (D.leaves device.old) }
    ensures failed { OnErr result (Rose (D.state device.old).disk_faults (D.state device.new).disk_faults) }
    ensures fine { OnOk result (SameFaults (D.state device.old) (D.state device.new)) }
    ensures frame { Frame (D.state device.old) (D.state device.new) }
    ensures names { SameNames (D.state device.old) (D.state device.new) }
    ensures spare { OnOk result (UsesAll 2 (length bytes.now) (D.state device.old) (D.state device.new)) }
    ensures any_moment { IsTrue (D.state device.old).told → WritesOnly at (at + length bytes.now) (length bytes.now) (D.state device.old) (D.state device.new) (D.leaves device.old) (D.leaves device.new) }
    ensures ok { OnOk result (IsTrue (D.state device.old).told → IsSynced (length bytes.now) (written (D.state device.old).holds at bytes.now) (D.state device.old) (D.state device.new) (D.leaves device.new)) }
{
    device.write_at(at, bytes)?;
    device.sync()
}

/// Brings the file onto the disk as reads give it.
pub fn bring_to_rest<D: Device>(device: &mut D) -> Result<(), DeviceError>
    ensures at_rest { OnOk result (IsTrue (D.state device.old).told → Only (D.state device.new).holds (D.state device.new) (D.leaves device.new)) }
    ensures rests { IsTrue (D.state device.old).told → Rests (D.state device.old) (D.state device.new) (D.leaves device.old) (D.leaves device.new) }
    ensures failed { IsErrOf result DeviceError.Failed → Rose (D.state device.old).disk_faults (D.state device.new).disk_faults }
    ensures fine { (IsErrOf result DeviceError.Failed → ⊥) → SameFaults (D.state device.old) (D.state device.new) }
    ensures frame { Frame (D.state device.old) (D.state device.new) }
    ensures names { SameNames (D.state device.old) (D.state device.new) }
{
    device.reserve(1, 0, 0)?;
    device.sync()?;
    Ok(())
}
