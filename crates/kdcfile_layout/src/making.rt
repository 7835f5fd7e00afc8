//! A file is made: with a closed gate, which is opened when all else is on the disk.
ghost use Rattle.std.specs.Prelude.{◌≡◌, ◌≤◌, ◌<◌, ◌+◌, ◌^◌, ◌∷◌, [], List, ℕ, IsTrue, length, OnOk, OnErr};
ghost use Rattle.kd_device.specs.Device.{State, Rose, Frame, SameFaults, SameNames, LeavesOnly, Only};
ghost use Rattle.kdcfile_layout.specs.{Synced.{IsSynced}, Gates.{ShutOr}, Series.{together}};

use crate::series::write_parts_synced;
use crate::synced::write_synced;
use kd_device::{Device, Failed};

const CLOSED: u8 = 0;

const OPEN: u8 = 75;

/// Makes the file, which is empty: a closed gate, all that is after it, part after part, and then the open gate are
/// written, each of the three with a sync after it. A stop leaves a file that is shut, or the whole one.
pub fn make_file<D: Device>(device: &mut D, rest: &[&[u8]]) -> Result<(), Failed>
    requires few { length (together rest.now) < 2 ^ 63 }
    requires calls { length rest.now + 5 ≤ (D.state device.old).spare_calls }
    requires bytes { length (together rest.now) + 2 ≤ (D.state device.old).spare_bytes }
    requires inside { length (together rest.now) + 1 ≤ (D.state device.old).spare_end }
    requires empty { IsTrue (D.state device.old).told → (D.state device.old).holds ≡ [] }
    requires at_rest { IsTrue (D.state device.old).told → Only (D.state device.old).holds (D.state device.old) (D.leaves device.old) }
    ensures failed { OnErr result (Rose (D.state device.old).disk_faults (D.state device.new).disk_faults) }
    ensures fine { OnOk result (SameFaults (D.state device.old) (D.state device.new)) }
    ensures frame { Frame (D.state device.old) (D.state device.new) }
    ensures names { SameNames (D.state device.old) (D.state device.new) }
    ensures sent { IsTrue (D.state device.old).told → (D.state device.new).sent ≡ (D.state device.old).sent }
    ensures put_most { IsTrue (D.state device.old).told → (D.state device.new).put ≤ (D.state device.old).put + length (together rest.now) + 2 }
    ensures any_moment { IsTrue (D.state device.old).told → LeavesOnly (D.state device.old) (D.state device.new) (D.leaves device.old) (D.leaves device.new) (ShutOr (together rest.now) (D.state device.old).sent) }
    ensures ok { OnOk result (IsTrue (D.state device.old).told → IsSynced (length (together rest.now) + 2) (75 ∷ together rest.now) (D.state device.old) (D.state device.new) (D.leaves device.new)) }
{
    write_synced(device, 0, &[CLOSED])?;
    write_parts_synced(device, 1, rest)?;
    write_synced(device, 0, &[OPEN])
}
