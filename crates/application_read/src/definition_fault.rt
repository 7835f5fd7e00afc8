//! Why a definition is refused.
ghost use Rattle.std.specs.Prelude.{◌≡◌};
ghost use Rattle.application_read.specs.{DefinitionFaults.{line_of, name_of}, Causes.{of_lex, of_read, of_check}};

use application_check::kdcdef_check::CheckFault;
use kdcdef_read::ReadFault;
use std::fmt::{self, Debug, Display, Formatter, Write};
use texts::kdcdef_lex::LexFault;
use thiserror::Error;

/// The first fault of a definition.
#[derive(Clone, Copy, Error)]
pub enum DefinitionFault {
    /// The text spells no statements.
    #[error(transparent)]
    Lex(LexFault),
    /// A statement says nothing of this profile.
    #[error(transparent)]
    Read(ReadFault),
    /// The statements together generate nothing.
    #[error(transparent)]
    Check(CheckFault),
    /// Memory ran out, which may be answered in place of anything else.
    #[error("out of memory")]
    Memory,
}

impl Debug for DefinitionFault {
    fn fmt<W: Write>(&self, f: &mut Formatter<W>) -> fmt::Result {
        Display::fmt(self, f)
    }
}

impl From<LexFault> for DefinitionFault {
    ghost from_gives = { λ e r. r ≡ of_lex e };

    fn from(e: LexFault) -> DefinitionFault {
        match e {
            LexFault::Memory => DefinitionFault::Memory,
            fault => DefinitionFault::Lex(fault),
        }
    }
}

impl From<ReadFault> for DefinitionFault {
    ghost from_gives = { λ e r. r ≡ of_read e };

    fn from(e: ReadFault) -> DefinitionFault {
        match e {
            ReadFault::Memory => DefinitionFault::Memory,
            fault => DefinitionFault::Read(fault),
        }
    }
}

impl From<CheckFault> for DefinitionFault {
    ghost from_gives = { λ e r. r ≡ of_check e };

    fn from(e: CheckFault) -> DefinitionFault {
        match e {
            CheckFault::Memory => DefinitionFault::Memory,
            fault => DefinitionFault::Check(fault),
        }
    }
}

impl DefinitionFault {
    /// The number of its line, counted from 1; 0 for a text that is too long. It takes no memory.
    pub fn line(&self) -> u32
        ensures { result ≡ line_of self.now }
    {
        match self {
            DefinitionFault::Lex(fault) => fault.line(),
            DefinitionFault::Read(fault) => fault.line(),
            DefinitionFault::Check(fault) => fault.line(),
            DefinitionFault::Memory => 0,
        }
    }

    /// The name by which it is printed. It takes no memory.
    pub fn name(&self) -> &'static str
        ensures { result.now ≡ name_of self.now }
    {
        match self {
            DefinitionFault::Lex(fault) => fault.name(),
            DefinitionFault::Read(fault) => fault.name(),
            DefinitionFault::Check(fault) => fault.name(),
            DefinitionFault::Memory => "Memory",
        }
    }
}
