//! Pages and a root are written, and then selected.
ghost use Rattle.std.specs.Prelude.{◌≡◌, ◌≤◌, ◌<◌, ◌+◌, ◌^◌, ◌∷◌, [], List, ℕ, IsTrue, length, OnOk, OnErr, IsErrOf};
ghost use Rattle.kd_device.specs.Device.{State, Rose, Frame, SameFaults, SameNames, LeavesOnly, Only, written};
ghost use Rattle.kd_device.specs.Rest.{Rests};
ghost use Rattle.kdcfile_layout.specs.Synced.{UsesAll, WritesOnly, IsSynced};
ghost use Rattle.kdcfile_layout.specs.Writes.{written_all, total, AllBelow, Selects};

use crate::page::PageWrite;
use crate::writes::stage;
use kd_device::{Device, DeviceError, Failed};

const SELECTOR: u64 = 4096;

// How many bytes these writes are.
fn total_bytes(writes: &[PageWrite]) -> u64
    requires { total writes.now < 2 ^ 63 }
    ensures { result ≡ total writes.now }
{
    let mut sum: u64 = 0;
    for write in writes {
        sum += write.bytes.len() as u64;
    }
    sum
}

// Writes the selector and syncs.
fn select<D: Device>(device: &mut D, selector: u8) -> Result<(), Failed>
    requires calls { 2 ≤ (D.state device.old).spare_calls }
    requires bytes { 1 ≤ (D.state device.old).spare_bytes }
    requires inside { 4097 ≤ (D.state device.old).spare_end }
    requires at_rest { IsTrue (D.state device.old).told → Only (D.state device.old).holds (D.state device.old) (D.leaves device.old) }
    ensures failed { OnErr result (Rose (D.state device.old).disk_faults (D.state device.new).disk_faults) }
    ensures fine { OnOk result (SameFaults (D.state device.old) (D.state device.new)) }
    ensures frame { Frame (D.state device.old) (D.state device.new) }
    ensures names { SameNames (D.state device.old) (D.state device.new) }
    ensures any_moment { IsTrue (D.state device.old).told → WritesOnly 4096 4097 1 (D.state device.old) (D.state device.new) (D.leaves device.old) (D.leaves device.new) }
    ensures ok { OnOk result (IsTrue (D.state device.old).told → IsSynced 1 (written (D.state device.old).holds 4096 (selector ∷ [])) (D.state device.old) (D.state device.new) (D.leaves device.new)) }
{
    device.write_at(SELECTOR, &[selector])?;
    device.sync()
}

// Makes these writes and syncs, writes the selector and syncs.
fn replace<D: Device>(device: &mut D, writes: &[PageWrite], selector: u8) -> Result<(), Failed>
    requires calls { length writes.now + 3 ≤ (D.state device.old).spare_calls }
    requires bytes { total writes.now + 1 ≤ (D.state device.old).spare_bytes }
    requires inside { AllBelow (D.state device.old).spare_end writes.now }
    requires selector_inside { 4097 ≤ (D.state device.old).spare_end }
    requires at_rest { IsTrue (D.state device.old).told → Only (D.state device.old).holds (D.state device.old) (D.leaves device.old) }
    ensures failed { OnErr result (Rose (D.state device.old).disk_faults (D.state device.new).disk_faults) }
    ensures fine { OnOk result (SameFaults (D.state device.old) (D.state device.new)) }
    ensures frame { Frame (D.state device.old) (D.state device.new) }
    ensures names { SameNames (D.state device.old) (D.state device.new) }
    ensures any_moment { IsTrue (D.state device.old).told → Selects writes.now (D.state device.old) (D.state device.new) (D.leaves device.old) (D.leaves device.new) }
    ensures ok { OnOk result (IsTrue (D.state device.old).told
        → IsSynced (total writes.now + 1) (written (written_all (D.state device.old).holds writes.now) 4096 (selector ∷ [])) (D.state device.old) (D.state device.new) (D.leaves device.new)) }
{
    stage(device, writes)?;
    select(device, selector)
}

/// Makes these writes, none of which passes `end`, and then writes this selector. `Memory` comes before the first
/// write.
pub fn commit_pages<D: Device>(
    device: &mut D,
    writes: &[PageWrite],
    selector: u8,
    end: u64,
) -> Result<(), DeviceError>
    requires few { total writes.now < 2 ^ 63 }
    requires inside { AllBelow end writes.now }
    requires selector_inside { 4097 ≤ end }
    requires at_rest { IsTrue (D.state device.old).told → Only (D.state device.old).holds (D.state device.old) (D.leaves device.old) }
    ensures failed { IsErrOf result DeviceError.Failed → Rose (D.state device.old).disk_faults (D.state device.new).disk_faults }
    ensures memory { IsErrOf result DeviceError.Memory → IsTrue (D.state device.old).told → Rests (D.state device.old) (D.state device.new) (D.leaves device.old) (D.leaves device.new) }
    ensures fine { (IsErrOf result DeviceError.Failed → ⊥) → SameFaults (D.state device.old) (D.state device.new) }
    ensures frame { Frame (D.state device.old) (D.state device.new) }
    ensures names { SameNames (D.state device.old) (D.state device.new) }

    // A stop leaves what is apart from the writes, or all of them with any selector.
    ensures any_moment { IsTrue (D.state device.old).told → Selects writes.now (D.state device.old) (D.state device.new) (D.leaves device.old) (D.leaves device.new) }
    ensures ok { OnOk result (IsTrue (D.state device.old).told
        → IsSynced (total writes.now + 1) (written (written_all (D.state device.old).holds writes.now) 4096 (selector ∷ [])) (D.state device.old) (D.state device.new) (D.leaves device.new)) }
{
    device.reserve(writes.len() as u64 + 3, total_bytes(writes) + 1, end)?;
    replace(device, writes, selector)?;
    Ok(())
}
