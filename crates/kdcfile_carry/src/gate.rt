//! The second file is shut by its first byte, beside the first one.
ghost use Rattle.std.specs.Prelude.{◌≡◌, ◌⊎◌, ◌≤◌, ◌+◌, ℕ, IsTrue, OnOk, IsErrOf};
ghost use Rattle.kd_device.specs.declared.half.Half.TheVariants.{First, Second};
ghost use Rattle.kdcfile_layout.specs.Gates.{IsShut};
ghost use Rattle.kdcfile_copies.specs.{Beside.{SameDisk}, Mending.{LeavesHalf}};
ghost use Rattle.kdcfile_double.specs.{Twice.{FrameBoth, NoneRose, RoseAt}, Mended.{BothRest}};

use kd_device::{DeviceError, Half, Twin};
use kdcfile_copies::kdcfile_mending::{CopyError, shut_gate};

/// Shuts the second file, where it is open. The first one stays as it is.
pub(crate) fn shut_second<T: Twin>(twin: &mut T) -> Result<(), DeviceError>
    requires at_rest { IsTrue (T.both twin.old).told → BothRest (T.both twin.old) (T.leaves twin.old) }
    ensures shut { OnOk result (IsTrue (T.both twin.old).told → IsShut (T.both twin.new).second.holds) }
    ensures at_rest { OnOk result (IsTrue (T.both twin.old).told → BothRest (T.both twin.new) (T.leaves twin.new)) }
    ensures sent { IsTrue (T.both twin.old).told → (T.both twin.new).sent ≡ (T.both twin.old).sent }
    ensures any_moment { IsTrue (T.both twin.old).told → LeavesHalf Second (T.both twin.old).first.holds (λ c. (c ≡ (T.both twin.old).second.holds) ⊎ IsShut c) (T.both twin.old) (T.both twin.new) (T.leaves twin.old) (T.leaves twin.new) }
    ensures put_most { IsTrue (T.both twin.old).told → (T.both twin.new).second.put ≤ (T.both twin.old).second.put + 1 }
    ensures other_half { SameDisk First (T.both twin.old) (T.both twin.new) }
    ensures failed { IsErrOf result DeviceError.Failed → RoseAt Second (T.both twin.old) (T.both twin.new) }
    ensures fine { (IsErrOf result DeviceError.Failed → ⊥) → NoneRose (T.both twin.old) (T.both twin.new) }
    ensures frame { FrameBoth (T.both twin.old) (T.both twin.new) }
{
    match shut_gate(twin, Half::Second, false) {
        Ok(()) => Ok(()),
        Err(CopyError::Target) => Err(DeviceError::Failed),
        Err(CopyError::Source) => unreachable!(),
        Err(CopyError::Memory) => Err(DeviceError::Memory),
    }
}
