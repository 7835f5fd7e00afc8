//! Both files are read, whichever texts they are of.
ghost use Rattle.std.specs.Prelude.{◌≡◌, ◌⊎◌, IsTrue, IfOk, OnOk, IsErrOf};
ghost use Rattle.kd_device.specs.declared.half.Half.TheVariants.{First, Second};
ghost use Rattle.kdcfile_copies.specs.Finding.{IsAnswer, IsFound};
ghost use Rattle.kdcfile_double.specs.{Choice.{copy_in}, MakingLaws.{RestsBoth}, Mended.{BothRest}, Twice.{FrameBoth, NoneRose, RoseAt}};

use kd_device::{DeviceError, Half, Twin};
use kdcfile_copies::kdcfile_halves::load_half;
use kdcfile_copies::{Found, LoadedCopy};
use std::alloc::Global;

/// Reads both files, which stay as they are.
pub fn read_both<T: Twin>(alloc: Global, twin: &mut T) -> Result<(Found, Found), DeviceError>
    ensures first { IfOk result (λ o. IsFound o.0) }
    ensures second { IfOk result (λ o. IsFound o.1) }
    ensures first_answer { IfOk result (λ o. IsTrue (T.both twin.old).told → IsAnswer o.0 (T.both twin.old).first.holds) }
    ensures second_answer { IfOk result (λ o. IsTrue (T.both twin.old).told → IsAnswer o.1 (T.both twin.old).second.holds) }
    ensures at_rest { OnOk result (IsTrue (T.both twin.old).told → BothRest (T.both twin.new) (T.leaves twin.new)) }
    ensures rests { IsTrue (T.both twin.old).told → RestsBoth (T.both twin.old) (T.both twin.new) (T.leaves twin.old) (T.leaves twin.new) }
    ensures failed { IsErrOf result DeviceError.Failed → RoseAt First (T.both twin.old) (T.both twin.new) ⊎ RoseAt Second (T.both twin.old) (T.both twin.new) }
    ensures fine { (IsErrOf result DeviceError.Failed → ⊥) → NoneRose (T.both twin.old) (T.both twin.new) }
    ensures frame { FrameBoth (T.both twin.old) (T.both twin.new) }
{
    let first = load_half(alloc, twin, Half::First)?;
    let second = load_half(alloc, twin, Half::Second)?;
    Ok((first, second))
}

/// The copy that was found, if one was.
pub fn copy_in(found: Found) -> Option<LoadedCopy>
    ensures { result ≡ copy_in found }
{
    match found {
        Found::Copy(copy) => Some(copy),
        Found::Empty => None,
        Found::NoCopy => None,
    }
}
