//! Why a script was refused.
ghost use Rattle.std.specs.Prelude.{◌≡◌};
ghost use Rattle.script_read.specs.declared.fault.ScriptFault.TheVariants.{Memory};

use kd_base::OutOfMemory;
use std::fmt::{self, Debug, Display, Formatter, Write};
use thiserror::Error;

/// The first fault of a script, with the number of its line from 1.
#[derive(Clone, Copy, Error)]
pub enum ScriptFault {
    /// A line that is no command.
    BadLine(u32),
    /// A number of digits outside its range.
    OutOfRange(u32),
    /// More than 16,777,216 bytes, or more than 1,000,000 lines that are neither empty nor comments.
    TooLong,
    Memory,
}

impl ScriptFault {
    // What it says of its line, or of the script.
    fn message(&self) -> &'static str {
        match self {
            ScriptFault::BadLine(_) => "no command",
            ScriptFault::OutOfRange(_) => "a number outside its range",
            ScriptFault::TooLong => "the script is too long",
            ScriptFault::Memory => "out of memory",
        }
    }
}

impl Display for ScriptFault {
    fn fmt<W: Write>(&self, f: &mut Formatter<W>) -> fmt::Result {
        match self {
            ScriptFault::BadLine(line) | ScriptFault::OutOfRange(line) => {
                write!(f, "line {line}: {}", self.message())
            }
            ScriptFault::TooLong | ScriptFault::Memory => f.write_str(self.message()),
        }
    }
}

impl Debug for ScriptFault {
    fn fmt<W: Write>(&self, f: &mut Formatter<W>) -> fmt::Result {
        Display::fmt(self, f)
    }
}

impl From<OutOfMemory> for ScriptFault {
    ghost from_gives = { λ _ e. e ≡ Memory };

    fn from(_: OutOfMemory) -> Self {
        ScriptFault::Memory
    }
}
