//! Several writes, with a sync after them.
ghost use Rattle.std.specs.Prelude.{◌≡◌, ◌≤◌, ◌<◌, ◌+◌, ◌^◌, List, ℕ, IsTrue, length, OnOk, OnErr};
ghost use Rattle.kd_device.specs.Device.{State, Rose, Frame, SameFaults, SameNames, LeavesOnly, Only};
ghost use Rattle.kdcfile_layout.specs.Synced.{UsesAll, IsSynced};
ghost use Rattle.kdcfile_layout.specs.Writes.{written_all, total, AllBelow, Keeps, Stages};

use crate::page::PageWrite;
use kd_device::{Device, Failed};

// Makes these writes, of which a stop may leave any part.
fn write_all<D: Device>(device: &mut D, writes: &[PageWrite]) -> Result<(), Failed>
    requires calls { length writes.now ≤ (D.state device.old).spare_calls }
    requires bytes { total writes.now ≤ (D.state device.old).spare_bytes }
    requires inside { AllBelow (D.state device.old).spare_end writes.now }
    requires at_rest { IsTrue (D.state device.old).told → Only (D.state device.old).holds (D.state device.old) (D.leaves device.old) }
    ensures failed { OnErr result (Rose (D.state device.old).disk_faults (D.state device.new).disk_faults) }
    ensures fine { OnOk result (SameFaults (D.state device.old) (D.state device.new)) }
    ensures frame { Frame (D.state device.old) (D.state device.new) }
    ensures names { SameNames (D.state device.old) (D.state device.new) }
    ensures spare { OnOk result (UsesAll (length writes.now) (total writes.now) (D.state device.old) (D.state device.new)) }
    ensures holds { OnOk result (IsTrue (D.state device.old).told → (D.state device.new).holds ≡ written_all (D.state device.old).holds writes.now) }
    ensures put { OnOk result (IsTrue (D.state device.old).told → (D.state device.new).put ≡ (D.state device.old).put + total writes.now) }
    ensures stop { OnOk result (IsTrue (D.state device.old).told → (c : List ℕ) → D.leaves device.new (D.state device.new).moment c (D.state device.new).sent → Keeps writes.now (D.state device.old).holds c) }
    ensures any_moment { IsTrue (D.state device.old).told → Stages writes.now (D.state device.old) (D.state device.new) (D.leaves device.old) (D.leaves device.new) }
{
    for write in writes {
        device.write_at(write.at, write.bytes.as_slice())?;
    }
    Ok(())
}

/// Makes these writes and syncs.
pub fn stage<D: Device>(device: &mut D, writes: &[PageWrite]) -> Result<(), Failed>
    requires calls { length writes.now + 1 ≤ (D.state device.old).spare_calls }
    requires bytes { total writes.now ≤ (D.state device.old).spare_bytes }
    requires inside { AllBelow (D.state device.old).spare_end writes.now }
    requires at_rest { IsTrue (D.state device.old).told → Only (D.state device.old).holds (D.state device.old) (D.leaves device.old) }
    ensures failed { OnErr result (Rose (D.state device.old).disk_faults (D.state device.new).disk_faults) }
    ensures fine { OnOk result (SameFaults (D.state device.old) (D.state device.new)) }
    ensures frame { Frame (D.state device.old) (D.state device.new) }
    ensures names { SameNames (D.state device.old) (D.state device.new) }
    ensures spare { OnOk result (UsesAll (length writes.now + 1) (total writes.now) (D.state device.old) (D.state device.new)) }
    ensures any_moment { IsTrue (D.state device.old).told → Stages writes.now (D.state device.old) (D.state device.new) (D.leaves device.old) (D.leaves device.new) }
    ensures ok { OnOk result (IsTrue (D.state device.old).told
        → IsSynced (total writes.now) (written_all (D.state device.old).holds writes.now) (D.state device.old) (D.state device.new) (D.leaves device.new)) }
{
    write_all(device, writes)?;
    device.sync()
}
