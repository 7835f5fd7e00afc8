//! The two copies of a KDCFILE, as far as they are in use.
ghost use Rattle.std.specs.Prelude.{◌≡◌};
ghost use Rattle.kdcfile_double.specs.Twice.{IsTwice, given_up};

use kd_device::Half;
use kdcfile_copies::LoadedCopy;
use std::marker::Model;
use std::mem;

/// A content that is kept twice, on the two halves of a twin. Contracts see the copies that are in use, which keep the
/// same with the same sequence, and which half was mended or is lost.
#[derive(Drop)]
pub struct TwinStore {
    pub(crate) first: Option<LoadedCopy>,
    pub(crate) second: Option<LoadedCopy>,
    pub(crate) mended: Option<Half>,
    pub(crate) lost: Option<Half>,
}

impl Model for TwinStore {
    ghost use Rattle.kdcfile_double.specs.Twice.{Twice, IsTwice};

    ghost Value = { Twice };

    ghost view = { λ s. record { first = s.first; second = s.second; mended = s.mended; lost = s.lost } };

    ghost invariant = { λ s. IsTwice (record { first = s.first; second = s.second; mended = s.mended; lost = s.lost }) };
}

impl TwinStore {
    /// A law: the copies in use keep the same with the same sequence, and the half that is lost is not in use. It does
    /// nothing.
    pub fn copies_are_alike(&self)
        ensures { IsTwice self.now }
    {
        let _ = &self.first;
    }

    /// The half that was written anew from the other one. It takes no memory.
    pub fn mended(&self) -> Option<Half>
        ensures { result ≡ self.now.mended }
    {
        self.mended
    }

    /// The half that is used no more, since a call on it failed. It takes no memory.
    pub fn lost(&self) -> Option<Half>
        ensures { result ≡ self.now.lost }
    {
        self.lost
    }

    /// Takes the copies out: no half is in use any more. It takes no memory.
    pub fn give_up(&mut self) -> TwinStore
        ensures taken { result ≡ self.old }
        ensures left { self.new ≡ given_up self.old }
    {
        let left = TwinStore {
            first: None,
            second: None,
            mended: self.mended(),
            lost: self.lost(),
        };
        mem::replace(self, left)
    }
}
