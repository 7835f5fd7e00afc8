//! The line of a refusal, beside both files.
ghost use Rattle.std.specs.Prelude.{◌≡◌};
ghost use Rattle.kd_device.specs.{Apart.{IsSince}, Twin.{half_state}};
ghost use Rattle.call_parts.specs.Beside.{SendsRefusal, SendsRefusalTwo, line_for, status_for};

use crate::refusing::{Cause, refuse_for};
use kd_device::{Half, HalfDevice, HalfOrigin, Twin};
use refusals::Status;
use std::alloc::Global;
use std::marker::Brand;

fn refuse_on<T: Twin, O: HalfOrigin>(alloc: Global, twin: T, half: Half, why: Cause) -> (T, Status)
    requires half { half ≡ O.half }
    requires since { IsSince O.half O.place (T.place twin) O.both (T.both twin) O.leaves (T.leaves twin) }
    ensures since { IsSince O.half O.place (T.place result.0) O.both (T.both result.0) O.leaves (T.leaves result.0) }
    ensures refuses { SendsRefusal (status_for why) (line_for why) (half_state O.half (T.both twin)) (half_state O.half (T.both result.0)) result.1.code }
{
    let mut device: HalfDevice<T, O> = HalfDevice::new(twin, half);
    let status = refuse_for(alloc, &mut device, why);
    (device.into_twin(), status)
}

/// Sends the line of its cause. Both files stay as they are.
pub fn refuse_beside<T: Twin>(alloc: Global, twin: &mut T, why: Cause) -> Status
    ensures { SendsRefusalTwo (status_for why) (line_for why) (T.both twin.old) (T.both twin.new) result.code }
{
    let (twin, status) = refuse_on::<&mut T, Brand>(alloc, twin, Half::First, why);
    let _ = twin;
    status
}
