//! The first half of a twin as a device: a call over one file.
ghost use Rattle.std.specs.Prelude.{◌≡◌};
ghost use Rattle.kd_device.specs.{Apart.{IsSince}, Twin.{disk_of, half_leaves, half_state}, declared.half.Half.TheVariants.{First, Second}};
ghost use Rattle.call_parts.specs.Asking.{CanRun, one_errand};
ghost use Rattle.utm_cli.specs.Parts.{EndsOne};
ghost use Rattle.call_parts.specs.LeavingTwo.{FrameTwin};

use crate::run::run;
use call_parts::OneFile;
use kd_device::{Half, HalfDevice, HalfOrigin, Twin};
use refusals::Status;
use std::alloc::Global;
use std::marker::Brand;

fn run_on<T: Twin, O: HalfOrigin>(
    alloc: Global,
    twin: T,
    half: Half,
    base: &[u8],
    asked: OneFile,
) -> (T, Status)
    requires half { half ≡ O.half }
    requires since { IsSince O.half O.place (T.place twin) O.both (T.both twin) O.leaves (T.leaves twin) }
    requires can { CanRun (one_errand asked) }
    ensures since { IsSince O.half O.place (T.place result.0) O.both (T.both result.0) O.leaves (T.leaves result.0) }
    ensures ends { EndsOne (one_errand asked) base.now (half_state O.half (T.both twin)) (half_state O.half (T.both result.0)) (half_leaves O.half (T.leaves twin)) (half_leaves O.half (T.leaves result.0)) result.1.code }
{
    let mut device: HalfDevice<T, O> = HalfDevice::new(twin, half);
    let status = run(alloc, &mut device, base, asked);
    (device.into_twin(), status)
}

/// Does what is asked for over one file, over the first disk. The second disk stays as it is.
pub(crate) fn run_first<T: Twin>(alloc: Global, twin: &mut T, base: &[u8], asked: OneFile) -> Status
    requires can { CanRun (one_errand asked) }
    ensures ends { EndsOne (one_errand asked) base.now (half_state First (T.both twin.old)) (half_state First (T.both twin.new)) (half_leaves First (T.leaves twin.old)) (half_leaves First (T.leaves twin.new)) result.code }
    ensures second { disk_of Second (T.both twin.new) ≡ disk_of Second (T.both twin.old) }
    ensures frame { FrameTwin (T.both twin.old) (T.both twin.new) }
{
    let (twin, status) = run_on::<&mut T, Brand>(alloc, twin, Half::First, base, asked);
    let _ = twin;
    status
}
