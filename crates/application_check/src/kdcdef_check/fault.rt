//! Why statements generate nothing.
ghost use Rattle.std.specs.Prelude.{◌≡◌};
ghost use Rattle.application_check.specs.{Faults.{row_of, line_of, name_of, comes_first}, Steps.{earlier}, declared.kdcdef_check.fault.CheckFault.TheVariants.{Memory}};

use kd_base::OutOfMemory;
use std::fmt::{self, Debug, Display, Formatter, Write};
use thiserror::Error;

/// The first fault of statements together, with the line of its statement, counted from 1.
///
/// The fault of the least line is answered, and on one line the one that is first here.
#[derive(Clone, Copy, Error)]
pub enum CheckFault {
    /// A name that an earlier statement of the kind has, a class twice, or one name for a TAC and an LTERM.
    NameTwice(u32),
    /// A TAC that names no PROGRAM statement.
    NoProgram(u32),
    /// A PTERM that names no LTERM statement.
    NoLterm(u32),
    /// A PTERM whose LTERM an earlier one has.
    LtermTwice(u32),
    /// No MAX statement gives APPLINAME; the line of END.
    NoMax(u32),
    /// A dialogue TAC with a class from 9 to 16, or an asynchronous TAC with one from 1 to 8.
    ClassOfWrongKind(u32),
    /// PGPOOL is less than the users with RESTART=YES and the LTERMs together; the line of END.
    PoolTooSmall(u32),
    /// No USER statement; the line of END.
    NoUser(u32),
    /// The 20,001st statement of a kind; all statements that are passed over are one kind.
    TooMany(u32),
    /// A USER or an LTERM that names no KSET statement.
    NoKset(u32),
    /// DOUBLE with a PGPOOL of 30,000, where each copy would need one page more; the line of END.
    PoolForDouble(u32),
    /// Memory ran out, which may be answered in place of anything else.
    Memory,
}

impl CheckFault {
    // Its line, its number among the faults of one line, and the name by which it is printed.
    fn row(&self) -> (u32, u8, &'static str)
        ensures { (result.0, result.1, result.2.now) ≡ row_of self.now }
    {
        match *self {
            CheckFault::NameTwice(line) => (line, 1, "NameTwice"),
            CheckFault::NoProgram(line) => (line, 2, "NoProgram"),
            CheckFault::NoLterm(line) => (line, 3, "NoLterm"),
            CheckFault::LtermTwice(line) => (line, 4, "LtermTwice"),
            CheckFault::NoMax(line) => (line, 5, "NoMax"),
            CheckFault::ClassOfWrongKind(line) => (line, 6, "ClassOfWrongKind"),
            CheckFault::PoolTooSmall(line) => (line, 7, "PoolTooSmall"),
            CheckFault::NoUser(line) => (line, 8, "NoUser"),
            CheckFault::TooMany(line) => (line, 9, "TooMany"),
            CheckFault::NoKset(line) => (line, 11, "NoKset"),
            CheckFault::PoolForDouble(line) => (line, 12, "PoolForDouble"),
            CheckFault::Memory => (0, 0, "Memory"),
        }
    }

    // What it says of its line.
    fn message(&self) -> &'static str {
        match self {
            CheckFault::NameTwice(_) => "a name that an earlier statement has",
            CheckFault::NoProgram(_) => "no PROGRAM statement has this name",
            CheckFault::NoLterm(_) => "no LTERM statement has this name",
            CheckFault::LtermTwice(_) => "an earlier PTERM has this LTERM",
            CheckFault::NoMax(_) => "no MAX statement gives APPLINAME",
            CheckFault::ClassOfWrongKind(_) => "a TAC with a class of the other kind",
            CheckFault::PoolTooSmall(_) => "PGPOOL is too small for the users and LTERMs",
            CheckFault::NoUser(_) => "no USER statement",
            CheckFault::TooMany(_) => "more than 20000 statements of a kind",
            CheckFault::NoKset(_) => "no KSET statement has this name",
            CheckFault::PoolForDouble(_) => "PGPOOL is too great for two copies of the KDCFILE",
            CheckFault::Memory => "out of memory",
        }
    }

    /// The number of its line, counted from 1. It takes no memory.
    pub fn line(&self) -> u32
        ensures { result ≡ line_of self.now }
    {
        self.row().0
    }

    /// The name by which it is printed. It takes no memory.
    pub fn name(&self) -> &'static str
        ensures { result.now ≡ name_of self.now }
    {
        self.row().2
    }

    fn comes_first(&self, other: &CheckFault) -> bool
        ensures { result ≡ comes_first self.now other.now }
    {
        let (line, number, _) = self.row();
        let (other_line, other_number, _) = other.row();
        line < other_line || (line == other_line && number <= other_number)
    }
}

impl Display for CheckFault {
    fn fmt<W: Write>(&self, f: &mut Formatter<W>) -> fmt::Result {
        match self {
            CheckFault::Memory => f.write_str(self.message()),
            _ => write!(f, "line {}: {}", self.line(), self.message()),
        }
    }
}

impl Debug for CheckFault {
    fn fmt<W: Write>(&self, f: &mut Formatter<W>) -> fmt::Result {
        Display::fmt(self, f)
    }
}

impl From<OutOfMemory> for CheckFault {
    ghost from_gives = { λ _ e. e ≡ Memory };

    fn from(_: OutOfMemory) -> CheckFault {
        CheckFault::Memory
    }
}

/// The first of two faults that were found.
pub(crate) fn earlier(a: Option<CheckFault>, b: Option<CheckFault>) -> Option<CheckFault>
    ensures { result ≡ earlier a b }
{
    match (a, b) {
        (None, found) | (found, None) => found,
        (Some(a), Some(b)) => Some(if a.comes_first(&b) { a } else { b }),
    }
}
