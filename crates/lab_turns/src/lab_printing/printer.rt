//! What is printed of commands and their steps, as they are done.
//!
//! A line of the monitor is printed as `utm` prints it. Beside it stand, in a trace, each command after `> `, and below it,
//! after two blanks, what each turn did.

use crate::lab_printing::console::Console;
use crate::lab_printing::source::Source;
use crate::lab_printing::turn_lines::{acts_text, asked_text, over_text, turn_and_acts_text};
use crate::{LabError, Listener, RunEnd, TurnView};
use abstract_monitor::Command;
use kdcs_types::Act;
use monitor_core::Core;
use std::alloc::Global;

/// Prints what it hears of.
#[derive(Drop)]
pub struct Printer<C: Console> {
    pub alloc: Global,
    pub console: C,
    /// The text of the units.
    pub units: Source,
    /// Whether it prints commands and turns beside the lines of the monitor.
    pub traces: bool,
}

impl<C: Console> Listener for Printer<C> {
    ghost use Rattle.lab_turns.specs.{Printing.{Prints}, PrintingLaws.{prints_both, prints_none}};

    ghost hears = { λ a tale b. Prints C.passes tale a.traces a.units a.console b.traces b.units b.console };

    fn command(&mut self, command: &Command) -> Result<(), LabError> {
        let text = asked_text(self.alloc, self.traces, command)?;
        self.console.put(text.as_slice())
    }

    fn turn(&mut self, _core: &Core, turn: &TurnView, acts: &[Act]) -> Result<(), LabError> {
        let text = turn_and_acts_text(self.alloc, self.traces, &self.units, turn, acts)?;
        self.console.put(text.as_slice())
    }

    fn done(&mut self, _core: &Core, acts: &[Act]) -> Result<(), LabError> {
        let text = acts_text(self.alloc, self.traces, acts)?;
        self.console.put(text.as_slice())
    }

    fn over(&mut self, turns: u64, end: RunEnd) -> Result<(), LabError> {
        let text = over_text(self.alloc, self.traces, turns, end)?;
        self.console.put(text.as_slice())
    }

    ghost hears_none = { λ p. prints_none C.passes C.passes_none p.traces p.units p.console };

    ghost hears_both = { λ a b c. prints_both C.passes C.passes_both a.traces a.units a.console b.traces b.units b.console c.traces c.units c.console };
}
