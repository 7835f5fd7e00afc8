//! Why a text could not be read.
ghost use Rattle.std.specs.Prelude.{◌≡◌};
ghost use Rattle.texts.specs.{Faults.{line_of, name_of}, declared.kdcdef_lex.fault.LexFault.TheVariants.{Memory}};

use kd_base::OutOfMemory;
use std::fmt::{self, Debug, Display, Formatter, Write};
use thiserror::Error;

/// The first fault of a text, with the number of its line, counted from 1.
///
/// The fault of the least line is answered, and on one line the one that is first here.
#[derive(Clone, Copy, Error)]
pub enum LexFault {
    /// A byte that may not be there: none of 0x20 to 0x7E, a tab, LF, and CR before LF.
    NotAscii(u32),
    /// A quote without its end.
    OpenQuote(u32),
    /// A parenthesis without its end.
    OpenParen(u32),
    /// No line follows this one, which is continued.
    DanglingContinuation(u32),
    /// Anything else that is no statement.
    BadOperand(u32),
    /// More than 16,777,216 bytes.
    TextTooLong,
    /// Memory ran out, which may be answered in place of anything else.
    Memory,
}

impl LexFault {
    // What it says of its line.
    fn message(&self) -> &'static str {
        match self {
            LexFault::NotAscii(_) => "a byte that may not stand there",
            LexFault::OpenQuote(_) => "a quote without its end",
            LexFault::OpenParen(_) => "a parenthesis without its end",
            LexFault::DanglingContinuation(_) => "no line follows a line that is continued",
            LexFault::BadOperand(_) => "an operand that does not fit",
            LexFault::TextTooLong => "a text longer than 16777216 bytes",
            LexFault::Memory => "out of memory",
        }
    }

    /// The number of its line; 0 for a text that is too long. It takes no memory.
    pub fn line(&self) -> u32
        ensures { result ≡ line_of self.now }
    {
        match self {
            LexFault::TextTooLong | LexFault::Memory => 0,
            LexFault::NotAscii(line)
            | LexFault::OpenQuote(line)
            | LexFault::OpenParen(line)
            | LexFault::DanglingContinuation(line)
            | LexFault::BadOperand(line) => *line,
        }
    }

    /// The name by which it is printed. It takes no memory.
    pub fn name(&self) -> &'static str
        ensures { result.now ≡ name_of self.now }
    {
        match self {
            LexFault::TextTooLong => "TextTooLong",
            LexFault::Memory => "Memory",
            LexFault::NotAscii(_) => "NotAscii",
            LexFault::OpenQuote(_) => "OpenQuote",
            LexFault::OpenParen(_) => "OpenParen",
            LexFault::DanglingContinuation(_) => "DanglingContinuation",
            LexFault::BadOperand(_) => "BadOperand",
        }
    }
}

impl Display for LexFault {
    fn fmt<W: Write>(&self, f: &mut Formatter<W>) -> fmt::Result {
        match self {
            LexFault::TextTooLong | LexFault::Memory => f.write_str(self.message()),
            _ => write!(f, "line {}: {}", self.line(), self.message()),
        }
    }
}

impl Debug for LexFault {
    fn fmt<W: Write>(&self, f: &mut Formatter<W>) -> fmt::Result {
        Display::fmt(self, f)
    }
}

impl From<OutOfMemory> for LexFault {
    ghost from_gives = { λ _ e. e ≡ Memory };

    fn from(_: OutOfMemory) -> LexFault {
        LexFault::Memory
    }
}
