//! A twin is lent, for a while, to what owns its twin.
//!
//! A value that is built around a twin, as a `HalfDevice`, owns it: a reference that is passed on is another one each time,
//! and a value stays the same. So a twin that is borrowed is a twin too, and `place` says which reference it is. Whoever
//! builds such a value writes a function over the twin by value and over an `Origin`, where the twin comes from, which
//! hands the twin back beside its answer: `fn run_on<T: Twin, O: Origin>(twin: T) -> (T, Answer)`. It is called as
//! `run_on::<&mut T, Brand>(twin)`, and the proof of that call picks the twin as it is then for the origin. The twin that
//! comes back has the place of the origin, and so it is the one that was lent. Where the answer owns memory, the caller
//! takes the twin out of the pair and lets it go by itself, since in such a pair its borrow does not end.
ghost use Rattle.std.specs.Prelude.{◌≡◌};

use crate::device::Failed;
use crate::half::Half;
use crate::twin::Twin;
use kd_base::OutOfMemory;
use std::marker::{Brand, Model, PhantomData};

/// Where a twin that is lent comes from, and what it was then. `Brand` is one that a proof picks.
pub trait Origin {
    ghost use Rattle.std.specs.Prelude.{ℕ};
    ghost use Rattle.kd_device.specs.Twin.{Both};

    ghost place: { ℕ };

    ghost both: { Both };
}

impl Origin for Brand {
    ghost use Rattle.kd_device.specs.Twin.{untold};

    ghost place = { 0 };

    ghost both = { untold };
}

/// Where a half of a twin is lent: which one, and what a stop might leave of the twin then.
pub trait HalfOrigin: Origin {
    ghost use Rattle.std.specs.Prelude.{ℕ, List};
    ghost use Rattle.kd_device.specs.declared.half.Half.{Half};

    ghost half: { Half };

    ghost leaves: { ℕ → List ℕ → List ℕ → List ℕ → Type 0 };
}

impl HalfOrigin for Brand {
    ghost use Rattle.kd_device.specs.declared.half.Half.TheVariants.{First};

    ghost half = { First };

    ghost leaves = { λ t c d out. Unit {0} };
}

impl<T: Twin> Twin for &mut T {
    ghost both = { λ r. T.both r.now };

    ghost leaves = { λ r. T.leaves r.now };

    ghost place = { λ r. r.ghost_name };

    fn attach(&mut self, half: Half, name: &[u8]) -> Result<(), Failed> {
        (**self).attach(half, name)
    }

    fn reserve(&mut self, calls: u64, bytes: u64, end: u64) -> Result<(), OutOfMemory> {
        (**self).reserve(calls, bytes, end)
    }

    fn size(&mut self, half: Half) -> Result<u64, Failed> {
        (**self).size(half)
    }

    fn read_at(&mut self, half: Half, at: u64, into: &mut [u8]) -> Result<usize, Failed> {
        (**self).read_at(half, at, into)
    }

    fn write_at(&mut self, half: Half, at: u64, bytes: &[u8]) -> Result<(), Failed> {
        (**self).write_at(half, at, bytes)
    }

    fn sync(&mut self, half: Half) -> Result<(), Failed> {
        (**self).sync(half)
    }

    fn emit(&mut self, piece: &[u8]) -> Result<(), Failed> {
        (**self).emit(piece)
    }

    ghost holds_now = { λ r told. T.holds_now r.now told };

    ghost sent_now = { λ r c d out told left. T.sent_now r.now c d out told left };

    ghost earlier = { λ r t u c d out told le left. T.earlier r.now t u c d out told le left };
}

/// The twin of an origin. Each call of a twin says that it stays in its place; what is generic in the twin does not say so
/// of its own calls.
#[derive(Drop)]
pub struct SameTwin<T: Twin, O: Origin> {
    twin: T,
    origin: PhantomData<O>,
}

impl<T: Twin, O: Origin> Model for SameTwin<T, O> {
    ghost use Rattle.std.specs.Prelude.{◌≡◌};

    ghost Value = { T };

    ghost view = { λ s. s.twin };

    ghost invariant = { λ s. T.place s.twin ≡ O.place };
}

impl<T: Twin, O: Origin> SameTwin<T, O> {
    /// This twin. It takes no memory.
    pub fn new(twin: T) -> SameTwin<T, O>
        requires { T.place twin ≡ O.place }
        ensures { result ≡ twin }
    {
        SameTwin {
            twin,
            origin: PhantomData,
        }
    }

    /// The twin again.
    pub fn into_twin(self) -> T
        ensures twin { result ≡ self }
        ensures place { T.place self ≡ O.place }
    {
        let SameTwin { twin, .. } = self;
        twin
    }
}

impl<T: Twin, O: Origin> Twin for SameTwin<T, O> {
    ghost both = { λ s. T.both s };

    ghost leaves = { λ s. T.leaves s };

    ghost place = { λ s. T.place s };

    fn attach(&mut self, half: Half, name: &[u8]) -> Result<(), Failed> {
        self.twin.attach(half, name)
    }

    fn reserve(&mut self, calls: u64, bytes: u64, end: u64) -> Result<(), OutOfMemory> {
        self.twin.reserve(calls, bytes, end)
    }

    fn size(&mut self, half: Half) -> Result<u64, Failed> {
        self.twin.size(half)
    }

    fn read_at(&mut self, half: Half, at: u64, into: &mut [u8]) -> Result<usize, Failed> {
        self.twin.read_at(half, at, into)
    }

    fn write_at(&mut self, half: Half, at: u64, bytes: &[u8]) -> Result<(), Failed> {
        self.twin.write_at(half, at, bytes)
    }

    fn sync(&mut self, half: Half) -> Result<(), Failed> {
        self.twin.sync(half)
    }

    fn emit(&mut self, piece: &[u8]) -> Result<(), Failed> {
        self.twin.emit(piece)
    }

    ghost holds_now = { λ s told. T.holds_now s told };

    ghost sent_now = { λ s c d out told left. T.sent_now s c d out told left };

    ghost earlier = { λ s t u c d out told le left. T.earlier s t u c d out told le left };
}
