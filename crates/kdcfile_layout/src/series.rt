//! Bytes in several parts, written one after another, with a sync after them.
ghost use Rattle.std.specs.Prelude.{◌≡◌, ◌≤◌, ◌<◌, ◌+◌, ◌^◌, ℕ, min, List, IsTrue, length, OnOk, OnErr};
ghost use Rattle.kd_device.specs.Device.{State, Rose, Frame, SameFaults, SameNames, Only, Torn, written};
ghost use Rattle.kdcfile_layout.specs.{Synced.{UsesAll, WritesOnly, IsSynced}, Series.{together}};

use kd_device::{Device, Failed};

// Writes these parts, of which a stop may leave any bytes.
fn write_parts<D: Device>(device: &mut D, at: u64, parts: &[&[u8]]) -> Result<(), Failed>
    requires few { at + length (together parts.now) < 2 ^ 64 }
    requires calls { length parts.now ≤ (D.state device.old).spare_calls }
    requires bytes { length (together parts.now) ≤ (D.state device.old).spare_bytes }
    requires inside { at + length (together parts.now) ≤ (D.state device.old).spare_end }
    requires no_gap { IsTrue (D.state device.old).told → at ≤ length (D.state device.old).holds }
    requires at_rest { IsTrue (D.state device.old).told → Only (D.state device.old).holds (D.state device.old) (D.leaves device.old) }
    ensures failed { OnErr result (Rose (D.state device.old).disk_faults (D.state device.new).disk_faults) }
    ensures fine { OnOk result (SameFaults (D.state device.old) (D.state device.new)) }
    ensures frame { Frame (D.state device.old) (D.state device.new) }
    ensures names { SameNames (D.state device.old) (D.state device.new) }
    ensures spare { OnOk result (UsesAll (length parts.now) (length (together parts.now)) (D.state device.old) (D.state device.new)) }
    ensures holds { OnOk result (IsTrue (D.state device.old).told → (D.state device.new).holds ≡ written (D.state device.old).holds at (together parts.now)) }
    ensures put { OnOk result (IsTrue (D.state device.old).told → (D.state device.new).put ≡ (D.state device.old).put + length (together parts.now)) }
    ensures stop { OnOk result (IsTrue (D.state device.old).told → (c : List ℕ) → D.leaves device.new (D.state device.new).moment c (D.state device.new).sent
        → Torn (min at (length (D.state device.old).holds)) (at + length (together parts.now)) (D.state device.old).holds c) }
    ensures any_moment { IsTrue (D.state device.old).told → WritesOnly at (at + length (together parts.now)) (length (together parts.now)) (D.state device.old) (D.state device.new) (D.leaves device.old) (D.leaves device.new) }
{
    let mut place = at;
    for part in parts {
        device.write_at(place, part)?;
        place += part.len() as u64;
    }
    Ok(())
}

/// Writes these parts, one after another from this place on, and syncs. A stop within it leaves any bytes in their place.
pub(crate) fn write_parts_synced<D: Device>(
    device: &mut D,
    at: u64,
    parts: &[&[u8]],
) -> Result<(), Failed>
    requires few { at + length (together parts.now) < 2 ^ 64 }
    requires calls { length parts.now + 1 ≤ (D.state device.old).spare_calls }
    requires bytes { length (together parts.now) ≤ (D.state device.old).spare_bytes }
    requires inside { at + length (together parts.now) ≤ (D.state device.old).spare_end }
    requires no_gap { IsTrue (D.state device.old).told → at ≤ length (D.state device.old).holds }
    requires at_rest { IsTrue (D.state device.old).told → Only (D.state device.old).holds (D.state device.old) (D.leaves device.old) }
    ensures failed { OnErr result (Rose (D.state device.old).disk_faults (D.state device.new).disk_faults) }
    ensures fine { OnOk result (SameFaults (D.state device.old) (D.state device.new)) }
    ensures frame { Frame (D.state device.old) (D.state device.new) }
    ensures names { SameNames (D.state device.old) (D.state device.new) }
    ensures spare { OnOk result (UsesAll (length parts.now + 1) (length (together parts.now)) (D.state device.old) (D.state device.new)) }
    ensures any_moment { IsTrue (D.state device.old).told → WritesOnly at (at + length (together parts.now)) (length (together parts.now)) (D.state device.old) (D.state device.new) (D.leaves device.old) (D.leaves device.new) }
    ensures ok { OnOk result (IsTrue (D.state device.old).told → IsSynced (length (together parts.now)) (written (D.state device.old).holds at (together parts.now)) (D.state device.old) (D.state device.new) (D.leaves device.new)) }
{
    write_parts(device, at, parts)?;
    device.sync()
}
