//! Why units do not fit a generation.
ghost use Rattle.std.specs.Prelude.{◌≡◌};
ghost use Rattle.application_check.specs.{declared.unit_check.fault.FitFault.TheVariants.{Memory}, FitFaults.{line_of, number_of, name_of}};

use kd_base::OutOfMemory;
use std::fmt::{self, Debug, Display, Formatter, Write};
use thiserror::Error;

/// The first reason why units do not fit a generation, with a line counted from 1.
///
/// A PROGRAM statement without a unit comes before all others; of these the one of the least line is answered, and on one
/// line the one that is first here.
#[derive(Clone, Copy, Error)]
pub enum FitFault {
    /// A PROGRAM statement, on this line of the definition, whose unit is missing.
    NoUnit(u32),
    /// A statement that jumps to a label that its unit has not.
    NoLabel(u32),
    /// A field that ends after the last byte of KB or SPAB.
    FieldPastArea(u32),
    /// A PEND that names by a literal what is no TAC.
    LiteralFollowUp(u32),
    /// Memory ran out, which may be answered in place of anything else.
    Memory,
}

impl FitFault {
    // What it says of its line.
    fn message(&self) -> &'static str {
        match self {
            FitFault::NoUnit(_) => "no unit has this name",
            FitFault::NoLabel(_) => "no such label",
            FitFault::FieldPastArea(_) => "a field past the end of its area",
            FitFault::LiteralFollowUp(_) => "no TAC has this name",
            FitFault::Memory => "out of memory",
        }
    }

    /// The number of its line, counted from 1. It takes no memory.
    pub fn line(&self) -> u32
        ensures { result ≡ line_of self.now }
    {
        match self {
            FitFault::NoUnit(line)
            | FitFault::NoLabel(line)
            | FitFault::FieldPastArea(line)
            | FitFault::LiteralFollowUp(line) => *line,
            FitFault::Memory => 0,
        }
    }

    // Its number among the faults of one line.
    pub(crate) fn number(&self) -> u8
        ensures { result ≡ number_of self.now }
    {
        match self {
            FitFault::NoUnit(_) => 1,
            FitFault::NoLabel(_) => 2,
            FitFault::FieldPastArea(_) => 3,
            FitFault::LiteralFollowUp(_) => 4,
            FitFault::Memory => 0,
        }
    }

    /// The name by which it is printed. It takes no memory.
    pub fn name(&self) -> &'static str
        ensures { result.now ≡ name_of self.now }
    {
        match self {
            FitFault::NoUnit(_) => "NoUnit",
            FitFault::NoLabel(_) => "NoLabel",
            FitFault::FieldPastArea(_) => "FieldPastArea",
            FitFault::LiteralFollowUp(_) => "LiteralFollowUp",
            FitFault::Memory => "Memory",
        }
    }
}

impl Display for FitFault {
    fn fmt<W: Write>(&self, f: &mut Formatter<W>) -> fmt::Result {
        match self {
            FitFault::NoUnit(line) => write!(
                f,
                "line {line} of the definition: {}",
                self.message()
            ),
            FitFault::Memory => f.write_str(self.message()),
            _ => write!(f, "line {}: {}", self.line(), self.message()),
        }
    }
}

impl Debug for FitFault {
    fn fmt<W: Write>(&self, f: &mut Formatter<W>) -> fmt::Result {
        Display::fmt(self, f)
    }
}

impl From<OutOfMemory> for FitFault {
    ghost from_gives = { λ _ e. e ≡ Memory };

    fn from(_: OutOfMemory) -> FitFault {
        FitFault::Memory
    }
}
