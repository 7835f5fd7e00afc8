//! The lines of the monitor, kept in memory.
ghost use Rattle.std.specs.Prelude.{◌≡◌, ◌++◌, [], OnOk};
ghost use Rattle.abstract_monitor.specs.Trace.{bytes_of};

use abstract_monitor::Command;
use kd_base::{Bytes, OutOfMemory};
use kdcs_types::Act;
use lab_turns::{LabError, Listener, RunEnd, TurnView};
use monitor_core::Core;
use std::alloc::Global;
use std::marker::Model;

/// Keeps the lines that it hears of. Contracts see them, one after another.
#[derive(Drop)]
pub(crate) struct Recorder {
    sent: Bytes,
}

impl Model for Recorder {
    ghost use Rattle.std.specs.Prelude.{List, ℕ};

    ghost Value = { List ℕ };

    ghost view = { λ r. r.sent };
}

// Puts the lines among these acts.
#[tactic(auto, unfolding(abstract_monitor::specs::Trace::bytes_of))]
fn put_lines(sent: &mut Bytes, acts: &[Act]) -> Result<(), OutOfMemory>
    ensures { OnOk result (sent.new ≡ sent.old ++ bytes_of acts.now) }
{
    for act in acts {
        if let Act::Emit(line) = act {
            sent.append(line.as_slice())?;
        }
    }
    Ok(())
}

impl Recorder {
    pub(crate) fn new(alloc: Global) -> Recorder
        ensures { result ≡ [] }
    {
        Recorder {
            sent: Bytes::new(alloc),
        }
    }

    /// The lines that it heard of.
    pub(crate) fn into_sent(self) -> Bytes
        ensures { result ≡ self }
    {
        self.sent
    }
}

impl Listener for Recorder {
    ghost use Rattle.lab_scripts.specs.{Records.{Records}, RecordsLaws.{records_both, records_none}};

    ghost hears = { Records };

    fn command(&mut self, _command: &Command) -> Result<(), LabError> {
        Ok(())
    }

    fn turn(&mut self, _core: &Core, _turn: &TurnView, acts: &[Act]) -> Result<(), LabError> {
        Ok(put_lines(&mut self.sent, acts)?)
    }

    fn done(&mut self, _core: &Core, acts: &[Act]) -> Result<(), LabError> {
        Ok(put_lines(&mut self.sent, acts)?)
    }

    fn over(&mut self, _turns: u64, _end: RunEnd) -> Result<(), LabError> {
        Ok(())
    }

    ghost hears_none = { records_none };

    ghost hears_both = { records_both };
}
