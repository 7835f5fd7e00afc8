//! Why statements could not be read.
ghost use Rattle.std.specs.Prelude.{◌≡◌};
ghost use Rattle.kdcdef_read.specs.{Faults.{at_line, line_of, name_of}, declared.fault.ReadFault.TheVariants.{Memory}};

use kd_base::OutOfMemory;
use std::fmt::{self, Debug, Display, Formatter, Write};
use thiserror::Error;

/// The first fault of a list of statements, with the number of its line, counted from 1.
///
/// The first faulty statement is answered; within it the first faulty operand, and on one operand what is first
/// here. That an operand is missing comes last in its statement.
#[derive(Clone, Copy, Error)]
pub enum ReadFault {
    /// A keyword that no statement has.
    UnknownStatement(u32),
    /// An operand that was given before, in this statement or in another MAX statement.
    OperandTwice(u32),
    /// An operand that the statement must have is not given.
    OperandMissing(u32),
    /// A value that is no name.
    BadName(u32),
    /// A value that is not 1 to 18 digits.
    BadNumber(u32),
    /// A number outside its range, or a password that is empty or longer than 16 bytes.
    OutOfRange(u32),
    /// A value that is none of the choices, or has another form.
    BadChoice(u32),
    /// Something of KDCDEF that this profile does not have.
    NotInProfile(u32),
    /// A statement after END.
    AfterEnd(u32),
    /// No END; the line is one more than that of the last statement, and 1 where there is none.
    NoEnd(u32),
    /// Memory ran out, which may be answered in place of anything else.
    Memory,
}

/// Why an operand or its statement is refused.
#[derive(Clone, Copy)]
pub(crate) enum Cause {
    OperandTwice,
    OperandMissing,
    BadName,
    BadNumber,
    OutOfRange,
    BadChoice,
    NotInProfile,
}

/// The fault with this cause in the statement at this line.
pub(crate) fn at_line(line: u32, cause: Cause) -> ReadFault
    ensures { result ≡ at_line line cause }
{
    match cause {
        Cause::OperandTwice => ReadFault::OperandTwice(line),
        Cause::OperandMissing => ReadFault::OperandMissing(line),
        Cause::BadName => ReadFault::BadName(line),
        Cause::BadNumber => ReadFault::BadNumber(line),
        Cause::OutOfRange => ReadFault::OutOfRange(line),
        Cause::BadChoice => ReadFault::BadChoice(line),
        Cause::NotInProfile => ReadFault::NotInProfile(line),
    }
}

impl ReadFault {
    // What it says of its line.
    fn message(&self) -> &'static str {
        match self {
            ReadFault::UnknownStatement(_) => "no statement has this keyword",
            ReadFault::OperandTwice(_) => "an operand is given twice",
            ReadFault::OperandMissing(_) => "an operand is missing",
            ReadFault::BadName(_) => "a value that is no name",
            ReadFault::BadNumber(_) => "a value that is no number",
            ReadFault::OutOfRange(_) => "a value outside its range",
            ReadFault::BadChoice(_) => "a value that is none of the choices",
            ReadFault::NotInProfile(_) => "not in this profile",
            ReadFault::AfterEnd(_) => "a statement behind END",
            ReadFault::NoEnd(_) => "no END",
            ReadFault::Memory => "out of memory",
        }
    }

    /// The number of its line, counted from 1. It takes no memory.
    pub fn line(&self) -> u32
        ensures { result ≡ line_of self.now }
    {
        match self {
            ReadFault::UnknownStatement(line)
            | ReadFault::OperandTwice(line)
            | ReadFault::OperandMissing(line)
            | ReadFault::BadName(line)
            | ReadFault::BadNumber(line)
            | ReadFault::OutOfRange(line)
            | ReadFault::BadChoice(line)
            | ReadFault::NotInProfile(line)
            | ReadFault::AfterEnd(line)
            | ReadFault::NoEnd(line) => *line,
            ReadFault::Memory => 0,
        }
    }

    /// The name by which it is printed. It takes no memory.
    pub fn name(&self) -> &'static str
        ensures { result.now ≡ name_of self.now }
    {
        match self {
            ReadFault::UnknownStatement(_) => "UnknownStatement",
            ReadFault::OperandTwice(_) => "OperandTwice",
            ReadFault::OperandMissing(_) => "OperandMissing",
            ReadFault::BadName(_) => "BadName",
            ReadFault::BadNumber(_) => "BadNumber",
            ReadFault::OutOfRange(_) => "OutOfRange",
            ReadFault::BadChoice(_) => "BadChoice",
            ReadFault::NotInProfile(_) => "NotInProfile",
            ReadFault::AfterEnd(_) => "AfterEnd",
            ReadFault::NoEnd(_) => "NoEnd",
            ReadFault::Memory => "Memory",
        }
    }
}

impl Display for ReadFault {
    fn fmt<W: Write>(&self, f: &mut Formatter<W>) -> fmt::Result {
        match self {
            ReadFault::Memory => f.write_str(self.message()),
            _ => write!(f, "line {}: {}", self.line(), self.message()),
        }
    }
}

impl Debug for ReadFault {
    fn fmt<W: Write>(&self, f: &mut Formatter<W>) -> fmt::Result {
        Display::fmt(self, f)
    }
}

impl From<OutOfMemory> for ReadFault {
    ghost from_gives = { λ _ e. e ≡ Memory };

    fn from(_: OutOfMemory) -> ReadFault {
        ReadFault::Memory
    }
}
