//! One half of a twin, with its line, as a device.
ghost use Rattle.std.specs.Prelude.{◌≡◌};
ghost use Rattle.kd_device.specs.{Twin.{half_state, half_leaves}, Apart.{IsSince}, HalfLaws.{holds_half, sent_half, earlier_half}};

use crate::device::{Device, Failed};
use crate::half::Half;
use crate::lent::HalfOrigin;
use crate::twin::Twin;
use kd_base::OutOfMemory;
use std::marker::{Model, PhantomData};

/// A half of a twin as a device: the disk of that half, and the line. Contracts see the twin. Whatever is done with it,
/// the other half is as it was at the origin.
#[derive(Drop)]
pub struct HalfDevice<T: Twin, O: HalfOrigin> {
    twin: T,
    half: Half,
    origin: PhantomData<O>,
}

impl<T: Twin, O: HalfOrigin> Model for HalfDevice<T, O> {
    ghost use Rattle.std.specs.Prelude.{◌≡◌};
    ghost use Rattle.kd_device.specs.Apart.{IsSince};

    ghost Value = { T };

    ghost view = { λ h. h.twin };

    ghost invariant = { λ h. (h.half ≡ O.half) × IsSince O.half O.place (T.place h.twin) O.both (T.both h.twin) O.leaves (T.leaves h.twin) };
}

impl<T: Twin, O: HalfOrigin> HalfDevice<T, O> {
    /// This half. It takes no memory.
    pub fn new(twin: T, half: Half) -> HalfDevice<T, O>
        requires half { half ≡ O.half }
        requires since { IsSince O.half O.place (T.place twin) O.both (T.both twin) O.leaves (T.leaves twin) }
        ensures { result ≡ twin }
    {
        HalfDevice {
            twin,
            half,
            origin: PhantomData,
        }
    }

    /// The twin again, whose other half is as it was at the origin.
    pub fn into_twin(self) -> T
        ensures twin { result ≡ self }
        ensures since { IsSince O.half O.place (T.place self) O.both (T.both self) O.leaves (T.leaves self) }
    {
        let HalfDevice { twin, .. } = self;
        twin
    }
}

impl<T: Twin, O: HalfOrigin> Device for HalfDevice<T, O> {
    ghost state = { λ h. half_state O.half (T.both h) };

    ghost leaves = { λ h. half_leaves O.half (T.leaves h) };

    fn attach(&mut self, name: &[u8]) -> Result<(), Failed> {
        self.twin.attach(self.half, name)
    }

    fn reserve(&mut self, calls: u64, bytes: u64, end: u64) -> Result<(), OutOfMemory> {
        self.twin.reserve(calls, bytes, end)
    }

    fn size(&mut self) -> Result<u64, Failed> {
        self.twin.size(self.half)
    }

    fn read_at(&mut self, at: u64, into: &mut [u8]) -> Result<usize, Failed> {
        self.twin.read_at(self.half, at, into)
    }

    fn write_at(&mut self, at: u64, bytes: &[u8]) -> Result<(), Failed> {
        self.twin.write_at(self.half, at, bytes)
    }

    fn sync(&mut self) -> Result<(), Failed> {
        self.twin.sync(self.half)
    }

    fn emit(&mut self, piece: &[u8]) -> Result<(), Failed> {
        self.twin.emit(piece)
    }

    ghost holds_now = { λ h told. holds_half O.half (T.both h) (T.leaves h) (T.holds_now h told) };

    ghost sent_now = { λ h c out told left. sent_half O.half (T.both h) (T.leaves h) (λ c d out. T.sent_now h c d out told) left.0 c out left.1 };

    ghost earlier = { λ h t u c out told le left. (left.0, earlier_half O.half (T.leaves h) (λ t u c d out. T.earlier h t u c d out told) left.0 t u c out le left.1) };
}
