//! The standard output as the line.
ghost use Rattle.std.specs.Prelude.{◌≡◌, ◌≤◌, OnErr, OnOk};
ghost use Rattle.kd_device.specs.Device.{Rose};

use crate::count::counted;
use kd_device::Failed;

/// Sends a piece, for a program of this name. Where it fails, the count of the line's faults rises.
pub(crate) fn send<R: Print + Eprint>(
    rt: &R,
    program: &str,
    piece: &[u8],
    faults: &mut u64,
) -> Result<(), Failed>
    ensures failed { OnErr result (Rose faults.old faults.new) }
    ensures fine { OnOk result (faults.new ≡ faults.old) }
    ensures later { faults.old ≤ faults.new }
{
    let sent = rt.write_all(piece);
    counted(rt, program, "standard output", "write", sent, faults)
}
