//! Counts of faults.
ghost use Rattle.std.specs.Prelude.{◌≡◌, ◌≤◌, Ok, IsErr, OnErr, OnOk, MatchResult};
ghost use Rattle.kd_device.specs.Device.{Rose};

use kd_device::Failed;
use std::io;

/// The value of a call of the outside. Where it failed, the count rises, and stands still at its type's end; a line on
/// standard error says which program, file and call it was, and why. If that line fails too, it is passed over.
pub(crate) fn counted<T: Drop, R: Eprint>(
    rt: &R,
    program: &str,
    file: &str,
    call: &str,
    answer: io::Result<T>,
    faults: &mut u64,
) -> Result<T, Failed>
    ensures value { MatchResult answer (λ value. result ≡ Ok value) (λ _. IsErr result) }
    ensures failed { OnErr result (Rose faults.old faults.new) }
    ensures done { OnOk result (faults.new ≡ faults.old) }
    ensures later { faults.old ≤ faults.new }
{
    match answer {
        Ok(value) => Ok(value),
        Err(error) => {
            *faults = faults.saturating_add(1);
            let _ = eprintln!(rt; "{program}: {file}: {call}: {error}");
            Err(Failed)
        }
    }
}
