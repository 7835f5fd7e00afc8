//! The lines that say which copy was written anew, and which is used no more.
ghost use Rattle.std.specs.Prelude.{◌≡◌, ◌++◌, IsTrue, OnOk, IsErrOf};
ghost use Rattle.kd_device.specs.Device.{Rose};
ghost use Rattle.abstract_monitor.specs.Trace.{bytes_of};
ghost use Rattle.twin_run.specs.{Parts.{SaysTwice}, Running.{lines_for, lost_line, mended_line}};

use kd_device::{DeviceError, Half, Twin};
use kdcfile_copies::kdcfile_halves::say_both;

fn mended_line(half: Half) -> &'static [u8]
    ensures { result.now ≡ mended_line half }
{
    match half {
        Half::First => b"COPY A MENDED\n",
        Half::Second => b"COPY B MENDED\n",
    }
}

fn lost_line(half: Half) -> &'static [u8]
    ensures { result.now ≡ lost_line half }
{
    match half {
        Half::First => b"COPY A LOST\n",
        Half::Second => b"COPY B LOST\n",
    }
}

/// Says which half was mended, where one was.
pub fn say_mended<T: Twin>(twin: &mut T, mended: Option<Half>) -> Result<(), DeviceError>
    ensures says { SaysTwice (lines_for mended_line mended) (T.both twin.old) (T.both twin.new) (T.leaves twin.old) (T.leaves twin.new) }
    ensures sent { OnOk result (IsTrue (T.both twin.old).told → (T.both twin.new).sent ≡ (T.both twin.old).sent ++ bytes_of (lines_for mended_line mended)) }
    ensures failed { IsErrOf result DeviceError.Failed → Rose (T.both twin.old).line_faults (T.both twin.new).line_faults }
    ensures fine { (IsErrOf result DeviceError.Failed → ⊥) → (T.both twin.new).line_faults ≡ (T.both twin.old).line_faults }
{
    match mended {
        Some(half) => say_both(twin, mended_line(half)),
        None => Ok(()),
    }
}

/// Says which half is lost, where one is.
pub fn say_lost<T: Twin>(twin: &mut T, lost: Option<Half>) -> Result<(), DeviceError>
    ensures says { SaysTwice (lines_for lost_line lost) (T.both twin.old) (T.both twin.new) (T.leaves twin.old) (T.leaves twin.new) }
    ensures sent { OnOk result (IsTrue (T.both twin.old).told → (T.both twin.new).sent ≡ (T.both twin.old).sent ++ bytes_of (lines_for lost_line lost)) }
    ensures failed { IsErrOf result DeviceError.Failed → Rose (T.both twin.old).line_faults (T.both twin.new).line_faults }
    ensures fine { (IsErrOf result DeviceError.Failed → ⊥) → (T.both twin.new).line_faults ≡ (T.both twin.old).line_faults }
{
    match lost {
        Some(half) => say_both(twin, lost_line(half)),
        None => Ok(()),
    }
}
