//! What is kept of commands and turns as they are done.
ghost use Rattle.std.specs.Prelude.{◌≡◌, ◌++◌, ◌∷◌, [], OnOk, true};
ghost use Rattle.abstract_monitor.specs.Trace.{bytes_of, tables_after};
ghost use Rattle.monitor_core.specs.Keeping.{AreKept};
ghost use Rattle.lab_orders.specs.Walking.{HasNoSigns};

use crate::seeing::no_signs;
use kd_base::{Bytes, OutOfMemory};
use kdcs_types::{Act, Acts, Tables};
use lab_walks::{Signs, Turns};
use monitor_core::Turned;
use monitor_core::script_run::keep_commits;
use std::alloc::Global;

/// What was done so far: the turns of RUNs, what was sent, and what was seen.
#[derive(Drop)]
pub(crate) struct Path {
    pub(crate) turns: Turns,
    pub(crate) sent: Bytes,
    /// The durable tables.
    pub(crate) durable: Tables,
    pub(crate) signs: Signs,
    /// No two transactions had begun and were open at once.
    pub(crate) serial: bool,
}

// The lines among these acts are sent.
fn send(sent: &mut Bytes, acts: &[Act]) -> Result<(), OutOfMemory>
    ensures { OnOk result (sent.new ≡ sent.old ++ bytes_of acts.now) }
{
    for act in acts {
        match act {
            Act::Commit(_) => {}
            Act::Emit(line) => sent.append(line.as_slice())?,
        }
    }
    Ok(())
}

impl Path {
    /// Nothing is done.
    pub(crate) fn start(alloc: Global, durable: Tables) -> Path
        ensures turns { result.turns ≡ [] }
        ensures sent { result.sent ≡ [] }
        ensures durable { result.durable ≡ durable }
        ensures signs { HasNoSigns result.signs }
        ensures serial { result.serial ≡ true }
    {
        Path {
            turns: Turns::new(alloc),
            sent: Bytes::new(alloc),
            durable,
            signs: no_signs(),
            serial: true,
        }
    }

    /// Acts were done.
    pub(crate) fn keep(&mut self, acts: Acts) -> Result<(), OutOfMemory>
        requires { AreKept acts }
        ensures turns { OnOk result (self.new.turns ≡ self.old.turns) }
        ensures sent { OnOk result (self.new.sent ≡ self.old.sent ++ bytes_of acts) }
        ensures durable { OnOk result (self.new.durable ≡ tables_after self.old.durable acts) }
        ensures signs { OnOk result (self.new.signs ≡ self.old.signs) }
        ensures serial { OnOk result (self.new.serial ≡ self.old.serial) }
    {
        keep_commits(&mut self.durable, acts.as_slice())?;
        send(&mut self.sent, acts.as_slice())
    }

    /// A turn of a RUN was done.
    pub(crate) fn take(&mut self, task: u16, did: Turned) -> Result<(), OutOfMemory>
        requires { AreKept did.acts }
        ensures turns { OnOk result (self.new.turns ≡ self.old.turns ++ task ∷ []) }
        ensures sent { OnOk result (self.new.sent ≡ self.old.sent ++ bytes_of did.acts) }
        ensures durable { OnOk result (self.new.durable ≡ tables_after self.old.durable did.acts) }
    {
        let Turned { acts, .. } = did;
        self.turns.push(task)?;
        self.keep(acts)
    }

    /// 0 ends a RUN, by its count or because no turn has an effect any more.
    pub(crate) fn end_run(&mut self) -> Result<(), OutOfMemory>
        ensures turns { OnOk result (self.new.turns ≡ self.old.turns ++ 0 ∷ []) }
        ensures sent { self.new.sent ≡ self.old.sent }
        ensures durable { self.new.durable ≡ self.old.durable }
    {
        self.turns.push(0)
    }
}
