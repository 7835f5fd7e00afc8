//! The steps of a script, whose commits become entries.
ghost use Rattle.std.specs.{Prelude.{◌≡◌, IfOk}, Option.{option_map}};
ghost use Rattle.abstract_monitor.specs.{CommandsOf.{IsCommandOf}, Commands.{maker_of}};
ghost use Rattle.trail_run.specs.{Entries.{by_of}, Running.{by_for, DidSteps, IsReady}, RunningLaws.{kept_goes}};

use crate::kept::{Kept, put_entry};
use abstract_monitor::Command;
use audit_trail::By;
use kd_base::OutOfMemory;
use monitor_core::script_run::{Sink, apply_beside, start_beside, turn_beside};
use monitor_core::{Core, Turned};
use std::alloc::Global;
use sync_points::KeptRecord;

// What made the commit of a turn: the transaction that it ended.
fn maker_of(alloc: Global, settled: Option<KeptRecord>) -> Result<Option<By>, OutOfMemory>
    ensures { IfOk result (λ by. by ≡ option_map by_of (maker_of settled)) }
{
    match settled {
        Some(kept) => Ok(Some(By::Transaction(kept.into_settled(alloc)?))),
        None => Ok(None),
    }
}

// What makes the commit of a command that is no RUN, TURN or RESTART, if it makes one.
fn maker_for(core: &Core, command: &Command) -> Option<By>
    requires names { IsCommandOf core.now.application.generation command.now }
    ensures { result ≡ by_for core.now.application command.now }
{
    match command {
        Command::Tick(ticks) => Some(By::Tick(*ticks)),
        Command::Input(pterm, _) | Command::Print(pterm) => Some(By::Shown(core.lterm_at(pterm))),
        Command::Run(_)
        | Command::Turn(_)
        | Command::Drop(_)
        | Command::PrintLast(_)
        | Command::Restart => None,
    }
}

impl Sink for Kept {
    type Error = OutOfMemory;

    ghost ready = { IsReady };

    ghost known = { λ _. Unit {0} };

    ghost took = { λ before c steps after d. DidSteps c before steps d after };

    ghost failed = { λ _ _ _ _ _. Unit {0} };

    ghost unopened = { λ _ _ _ _. Unit {0} };

    fn turn(&mut self, alloc: Global, core: Core, task: u16) -> Result<(Core, bool), OutOfMemory> {
        let (next, did) = turn_beside(alloc, core, &mut self.durable, task)?;
        let Turned {
            moved,
            acts,
            settled,
        } = did;
        let by = maker_of(alloc, settled)?;
        put_entry(&mut self.entries, by, acts)?;
        Ok((next, moved))
    }

    fn apply(&mut self, alloc: Global, core: Core, command: &Command) -> Result<Core, OutOfMemory> {
        let by = maker_for(&core, command);
        let (next, acts) = apply_beside(alloc, core, &mut self.durable, command)?;
        put_entry(&mut self.entries, by, acts)?;
        Ok(next)
    }

    fn restart(&mut self, alloc: Global, core: Core) -> Result<Core, OutOfMemory> {
        start_beside(alloc, core, &self.durable)
    }

    fn over(&mut self, _core: &Core, _turns: u64, _idle: bool) -> Result<(), OutOfMemory> {
        Ok(())
    }

    ghost applies = { λ kept c ready. ready.application };

    ghost goes = { kept_goes };
}
