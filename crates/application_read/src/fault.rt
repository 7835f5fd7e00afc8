//! Why the texts of an application are refused.
ghost use Rattle.std.specs.Prelude.{◌≡◌};
ghost use Rattle.application_read.specs.{Definition.{is_memory as is_definition_memory}, Handed.{handed_in}};
ghost use Rattle.unit_read.specs.Answers.{is_memory as is_units_memory};
ghost use Rattle.application_check.specs.FitFaults.{is_memory as is_fit_memory};
ghost use Rattle.application_read.specs.{declared.fault.ApplicationFault.TheVariants.{Definition, Units, Fit, Memory}, Faults.{line_of, name_of, text_of}};

use crate::definition_fault::DefinitionFault;
use application_check::unit_check::FitFault;
use std::fmt::{self, Debug, Display, Formatter, Write};
use thiserror::Error;
use unit_read::UnitFault;

/// The first fault of a definition and its units.
#[derive(Clone, Copy, Error)]
pub enum ApplicationFault {
    /// The definition generates nothing.
    #[error(transparent)]
    Definition(DefinitionFault),
    /// The text of the units spells no units.
    #[error(transparent)]
    Units(UnitFault),
    /// The units do not fit the generation.
    #[error(transparent)]
    Fit(FitFault),
    /// Memory ran out, which may be answered in place of anything else.
    #[error("out of memory")]
    Memory,
}

impl Debug for ApplicationFault {
    fn fmt<W: Write>(&self, f: &mut Formatter<W>) -> fmt::Result {
        Display::fmt(self, f)
    }
}

impl From<DefinitionFault> for ApplicationFault {
    ghost from_gives = { λ e r. r ≡ handed_in Memory is_definition_memory (λ x. Definition x) e };

    fn from(e: DefinitionFault) -> ApplicationFault {
        match e {
            DefinitionFault::Memory => ApplicationFault::Memory,
            fault => ApplicationFault::Definition(fault),
        }
    }
}

impl From<UnitFault> for ApplicationFault {
    ghost from_gives = { λ e r. r ≡ handed_in Memory is_units_memory (λ x. Units x) e };

    fn from(e: UnitFault) -> ApplicationFault {
        match e {
            UnitFault::Memory => ApplicationFault::Memory,
            fault => ApplicationFault::Units(fault),
        }
    }
}

impl From<FitFault> for ApplicationFault {
    ghost from_gives = { λ e r. r ≡ handed_in Memory is_fit_memory (λ x. Fit x) e };

    fn from(e: FitFault) -> ApplicationFault {
        match e {
            FitFault::Memory => ApplicationFault::Memory,
            fault => ApplicationFault::Fit(fault),
        }
    }
}

impl ApplicationFault {
    /// The word for the text that the line counts in: `DEF` for the definition, where a PROGRAM statement without a unit
    /// stands too, and `UNITS` for the units. It takes no memory.
    pub fn text(&self) -> &'static str
        ensures { result.now ≡ text_of self.now }
    {
        match self {
            ApplicationFault::Definition(_) | ApplicationFault::Fit(FitFault::NoUnit(_)) => "DEF",
            ApplicationFault::Units(_) | ApplicationFault::Fit(_) => "UNITS",
            ApplicationFault::Memory => "Memory",
        }
    }

    /// The number of its line, counted from 1; 0 for a text that is too long. It takes no memory.
    pub fn line(&self) -> u32
        ensures { result ≡ line_of self.now }
    {
        match self {
            ApplicationFault::Definition(fault) => fault.line(),
            ApplicationFault::Units(fault) => fault.line(),
            ApplicationFault::Fit(fault) => fault.line(),
            ApplicationFault::Memory => 0,
        }
    }

    /// The name by which it is printed. It takes no memory.
    pub fn name(&self) -> &'static str
        ensures { result.now ≡ name_of self.now }
    {
        match self {
            ApplicationFault::Definition(fault) => fault.name(),
            ApplicationFault::Units(fault) => fault.name(),
            ApplicationFault::Fit(fault) => fault.name(),
            ApplicationFault::Memory => "Memory",
        }
    }
}
