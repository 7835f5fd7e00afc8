//! Why a units text could not be read.
ghost use Rattle.std.specs.Prelude.{◌≡◌};
ghost use Rattle.unit_read.specs.{declared.fault.UnitFault.TheVariants.{Memory}, Faults.{line_of, name_of}};

use kd_base::OutOfMemory;
use std::fmt::{self, Debug, Display, Formatter, Write};
use thiserror::Error;

/// The first fault of a units text, with the number of its line, counted from 1.
///
/// The fault of the least line is answered, and on one line the one that is first here.
#[derive(Clone, Copy, Error)]
pub enum UnitFault {
    /// A line that is no piece of a unit, or not one that may be there.
    BadStatement(u32),
    /// A field that is not defined, a field that is defined twice, or a header name where bytes are stored.
    BadField(u32),
    /// A label that the unit already has.
    LabelTwice(u32),
    /// A UNIT line, or the line after the last, where a unit is open.
    NoEnd(u32),
    /// A UNIT line with the name of a unit above.
    UnitTwice(u32),
    /// The 10,001st statement of a unit, the 1,001st unit, or, with line 0, a text of more than 16,777,216 bytes.
    TooLong(u32),
    /// Memory ran out, which may be answered in place of anything else.
    Memory,
}

impl UnitFault {
    // What it says of its line.
    fn message(&self) -> &'static str {
        match self {
            UnitFault::BadStatement(_) => "no statement of a unit",
            UnitFault::BadField(_) => "a field that is not defined, or defined twice",
            UnitFault::LabelTwice(_) => "a label that stands twice",
            UnitFault::NoEnd(_) => "a unit without its END",
            UnitFault::UnitTwice(_) => "a unit that stands twice",
            UnitFault::TooLong(_) => "too long",
            UnitFault::Memory => "out of memory",
        }
    }

    /// The number of its line, counted from 1; 0 for a text that is too long. It takes no memory.
    pub fn line(&self) -> u32
        ensures { result ≡ line_of self.now }
    {
        match self {
            UnitFault::BadStatement(line)
            | UnitFault::BadField(line)
            | UnitFault::LabelTwice(line)
            | UnitFault::NoEnd(line)
            | UnitFault::UnitTwice(line)
            | UnitFault::TooLong(line) => *line,
            UnitFault::Memory => 0,
        }
    }

    /// The name by which it is printed. It takes no memory.
    pub fn name(&self) -> &'static str
        ensures { result.now ≡ name_of self.now }
    {
        match self {
            UnitFault::BadStatement(_) => "BadStatement",
            UnitFault::BadField(_) => "BadField",
            UnitFault::LabelTwice(_) => "LabelTwice",
            UnitFault::NoEnd(_) => "NoEnd",
            UnitFault::UnitTwice(_) => "UnitTwice",
            UnitFault::TooLong(_) => "TooLong",
            UnitFault::Memory => "Memory",
        }
    }
}

impl Display for UnitFault {
    fn fmt<W: Write>(&self, f: &mut Formatter<W>) -> fmt::Result {
        match self {
            UnitFault::Memory => f.write_str(self.message()),
            _ => write!(f, "line {}: {}", self.line(), self.message()),
        }
    }
}

impl Debug for UnitFault {
    fn fmt<W: Write>(&self, f: &mut Formatter<W>) -> fmt::Result {
        Display::fmt(self, f)
    }
}

impl From<OutOfMemory> for UnitFault {
    ghost from_gives = { λ _ e. e ≡ Memory };

    fn from(_: OutOfMemory) -> UnitFault {
        UnitFault::Memory
    }
}
