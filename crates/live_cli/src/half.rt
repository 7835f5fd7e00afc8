//! The first half of a twin as a device, for typed lines over one file.
ghost use Rattle.std.specs.Prelude.{◌≡◌};
ghost use Rattle.kd_device.specs.{Apart.{IsSince}, Twin.{disk_of, half_leaves, half_state}, declared.half.Half.TheVariants.{First, Second}};
ghost use Rattle.application_types.specs.Fitted.{IsFit};
ghost use Rattle.call_parts.specs.{Asking.{gen_errand}, LeavingTwo.{FrameTwin}};
ghost use Rattle.live_cli.specs.Ends.{EndsLive};

use crate::file::live_over;
use call_parts::Work;
use kd_device::{Half, HalfDevice, HalfOrigin, Twin};
use live_run::Typing;
use refusals::Status;
use std::alloc::Global;
use std::marker::Brand;

fn live_on<T: Twin, O: HalfOrigin, I: Typing>(
    alloc: Global,
    twin: T,
    half: Half,
    base: &[u8],
    work: Work,
    typing: &mut I,
) -> (T, Status)
    requires half { half ≡ O.half }
    requires since { IsSince O.half O.place (T.place twin) O.both (T.both twin) O.leaves (T.leaves twin) }
    requires fit { IsFit work.application.generation work.application.units }
    ensures since { IsSince O.half O.place (T.place result.0) O.both (T.both result.0) O.leaves (T.leaves result.0) }
    ensures ends { EndsLive (gen_errand work) base.now (I.typing typing.old) (I.typing typing.new) (half_state O.half (T.both twin)) (half_state O.half (T.both result.0)) (half_leaves O.half (T.leaves twin)) (half_leaves O.half (T.leaves result.0)) result.1.code }
{
    let mut device: HalfDevice<T, O> = HalfDevice::new(twin, half);
    let status = live_over(alloc, &mut device, base, work, typing);
    (device.into_twin(), status)
}

/// Performs what is typed over the KDCFILE of this BASE, on the first disk. The second disk stays as it is.
pub(crate) fn live_first<T: Twin, I: Typing>(
    alloc: Global,
    twin: &mut T,
    base: &[u8],
    work: Work,
    typing: &mut I,
) -> Status
    requires fit { IsFit work.application.generation work.application.units }
    ensures ends { EndsLive (gen_errand work) base.now (I.typing typing.old) (I.typing typing.new) (half_state First (T.both twin.old)) (half_state First (T.both twin.new)) (half_leaves First (T.leaves twin.old)) (half_leaves First (T.leaves twin.new)) result.code }
    ensures second { disk_of Second (T.both twin.new) ≡ disk_of Second (T.both twin.old) }
    ensures frame { FrameTwin (T.both twin.old) (T.both twin.new) }
{
    let (twin, status) = live_on::<&mut T, Brand, I>(alloc, twin, Half::First, base, work, typing);
    let _ = twin;
    status
}
