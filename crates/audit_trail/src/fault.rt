//! Why a trail was refused.
ghost use Rattle.std.specs.Prelude.{◌≡◌};
ghost use Rattle.audit_trail.specs.declared.fault.TrailFault.TheVariants.{Memory};

use kd_base::OutOfMemory;
use std::fmt::{self, Debug, Display, Formatter, Write};
use thiserror::Error;

/// The first fault of a trail, with the number of its line from 1.
#[derive(Clone, Copy, Error)]
pub enum TrailFault {
    /// A line that a trail does not have in this place.
    #[error("line {0}: no line of a trail in its place")]
    BadLine(u64),
    /// More than 16,777,216 bytes.
    #[error("the trail is too long")]
    TooLong,
    /// A fingerprint of other texts. Reading a trail never answers this.
    #[error("line {0}: the fingerprint of other texts")]
    OtherGeneration(u64),
    /// Tables at the start that do not suit the generation. Reading a trail never answers this.
    #[error("line {0}: tables that do not suit the generation")]
    NotSuited(u64),
    #[error("out of memory")]
    Memory,
}

impl Debug for TrailFault {
    fn fmt<W: Write>(&self, f: &mut Formatter<W>) -> fmt::Result {
        Display::fmt(self, f)
    }
}

impl From<OutOfMemory> for TrailFault {
    ghost from_gives = { λ _ e. e ≡ Memory };

    fn from(_: OutOfMemory) -> Self {
        TrailFault::Memory
    }
}
