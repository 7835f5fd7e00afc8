//! The steps of a script, whose acts are stored and sent.
ghost use Rattle.std.specs.Prelude.{◌≡◌, ◌∷◌, ℕ, List, IsTrue, IfOk, OnOk, IsErrOf};
ghost use Rattle.kd_device.specs.Device.{Rose, Frame, SameNames};
ghost use Rattle.device_acts.specs.Acting.{IsKeptBy};
ghost use Rattle.monitor_core.specs.CoreSteps.{durable_of};
ghost use Rattle.device_run.specs.Running.{identity_of, SaysNothing};
ghost use Rattle.device_run.specs.Keeping.{IsAgain, IsRunningWith, Reopening, StandsForRows};
ghost use Rattle.device_run.specs.{Storing.{FailedSteps, IsReadyWith, TookSteps}, StoringLaws.{storing_goes}};

use crate::commits::count_commits;
use crate::reopens::Reopens;
use crate::watcher::Watcher;
use abstract_monitor::Command;
use device_acts::keep_acts;
use device_acts::record_commits::{acts_are_named, steps_can_be_stored};
use device_acts::warm_start::OpenError;
use kdcs_types::Act;
use laws_of_states::laws_of_steps::steps_commit_once;
use monitor_core::Core;
use monitor_core::script_run::Sink;
use std::alloc::Global;

/// A keeper under a script, its files made with this fingerprint, how many commits it made, and who sees the turns.
#[derive(Drop)]
pub(crate) struct Storing<'a, 'b, K: Reopens, W: Watcher> {
    pub(crate) keeper: &'a mut K,
    pub(crate) fingerprint: &'a [u8; 32],
    pub(crate) commits: u64,
    pub(crate) watcher: &'b mut W,
}

// All memory is given up, and a monitor starts from what the keeper has.
fn start_again<K: Reopens>(
    alloc: Global,
    keeper: &mut K,
    core: Core,
    fingerprint: &[u8; 32],
) -> Result<Core, OpenError>
    requires ready { K.ready keeper.old }
    requires running { IsRunningWith fingerprint.now core (K.identity keeper.old) (K.kept keeper.old) }
    requires kept { IsTrue (K.state keeper.old).told → IsKeptBy (K.file keeper.old) (K.state keeper.old) (K.leaves keeper.old) }
    ensures ready { OnOk result (K.ready keeper.new) }
    ensures again { IfOk result (λ next. IsAgain K.fine fingerprint.now core next (K.identity keeper.new) (K.kept keeper.new) (K.file keeper.new) (K.state keeper.old) (K.state keeper.new) (K.leaves keeper.new)) }
    ensures still { IsTrue (K.state keeper.old).told → Reopening (StandsForRows K.stands (identity_of fingerprint.now core) (durable_of core)) (K.state keeper.old) (K.state keeper.new) (K.leaves keeper.old) (K.leaves keeper.new) }
    ensures fine { (IsErrOf result OpenError.Failed → ⊥) → K.fine (K.state keeper.old) (K.state keeper.new) }
    ensures failed { IsErrOf result OpenError.Failed → Rose (K.state keeper.old).disk_faults (K.state keeper.new).disk_faults }
    ensures refused { IsErrOf result OpenError.NotKdcfile → IsTrue (K.state keeper.old).told → ⊥ }
    ensures other { (stored : List ℕ) → IsErrOf result (OpenError.OtherGeneration stored) → IsTrue (K.state keeper.old).told → ⊥ }
    ensures frame { Frame (K.state keeper.old) (K.state keeper.new) }
    ensures names { SameNames (K.state keeper.old) (K.state keeper.new) }
    ensures place { K.place keeper.new ≡ K.place keeper.old }
{
    let (generation, units) = core.into_application();
    let tables = keeper.reopen(alloc, &generation, fingerprint)?;
    Ok(Core::start(alloc, generation, units, tables)?)
}

/// What is sent when a RESTART is done.
const RESTARTED: &[u8] = b"RESTART\n";

impl<K: Reopens, W: Watcher> Sink for Storing<'_, '_, K, W> {
    type Error = OpenError;

    ghost ready = { λ s c. K.ready s.keeper.now × IsReadyWith s.fingerprint.now c (K.identity s.keeper.now) (K.kept s.keeper.now) (K.file s.keeper.now) (K.state s.keeper.now) (K.leaves s.keeper.now) };

    ghost known = { λ s. IsTrue (K.state s.keeper.now).told };

    ghost took = { λ s c steps t d. K.ready t.keeper.now × TookSteps K.stands K.commit_most K.fine s.fingerprint.now t.fingerprint.now (s.keeper.ghost_name ∷ K.place s.keeper.now) (t.keeper.ghost_name ∷ K.place t.keeper.now) c steps d (K.identity t.keeper.now) (K.kept t.keeper.now) (K.file t.keeper.now) (K.state s.keeper.now) (K.state t.keeper.now) (K.leaves s.keeper.now) (K.leaves t.keeper.now) s.commits t.commits };

    ghost failed = { λ s c steps e t. FailedSteps K.stands K.commit_most K.fine s.fingerprint.now (s.keeper.ghost_name ∷ K.place s.keeper.now) (t.keeper.ghost_name ∷ K.place t.keeper.now) c steps e (K.state s.keeper.now) (K.state t.keeper.now) (K.leaves s.keeper.now) (K.leaves t.keeper.now) };

    ghost unopened = { λ s c e t. IsTrue (K.state s.keeper.now).told → SaysNothing (K.state s.keeper.now) (K.state t.keeper.now) };

    fn turn(&mut self, alloc: Global, core: Core, task: u16) -> Result<(Core, bool), OpenError> {
        steps_commit_once();
        steps_can_be_stored();
        self.watcher.before(&core, task);
        let (next, did) = core.turn(alloc, task)?;
        let acts = did.acts.as_slice();
        prove!(acts_are_named(acts)); // for the proof
        keep_acts(alloc, self.keeper, acts)?;
        count_commits(&mut self.commits, acts);
        self.watcher.after(&next, task, &did);
        Ok((next, did.moved))
    }

    fn idle(
        &mut self,
        _alloc: Global,
        core: Core,
        task: u16,
        most: u16,
    ) -> Result<(Core, u16), OpenError> {
        Ok((core.idle(task, most), most))
    }

    fn apply(&mut self, alloc: Global, core: Core, command: &Command) -> Result<Core, OpenError> {
        steps_commit_once();
        steps_can_be_stored();
        let (next, did) = core.apply(alloc, command)?;
        let acts = did.as_slice();
        prove!(acts_are_named(acts)); // for the proof
        keep_acts(alloc, self.keeper, acts)?;
        count_commits(&mut self.commits, acts);
        Ok(next)
    }

    fn restart(&mut self, alloc: Global, core: Core) -> Result<Core, OpenError> {
        let next = start_again(alloc, self.keeper, core, self.fingerprint)?;
        self.keeper.say(RESTARTED)?;
        Ok(next)
    }

    fn over(&mut self, _core: &Core, _turns: u64, _idle: bool) -> Result<(), OpenError> {
        Ok(())
    }

    ghost applies = { λ s c ready. ready.1.running.application };

    ghost goes = { storing_goes K.stands K.commit_most K.fine K.fine_goes (λ s. K.ready s.keeper.now) (λ s. s.fingerprint.now) (λ s. s.keeper.ghost_name ∷ K.place s.keeper.now) (λ s. K.identity s.keeper.now) (λ s. K.kept s.keeper.now) (λ s. K.file s.keeper.now) (λ s. K.state s.keeper.now) (λ s. K.leaves s.keeper.now) (λ s. s.commits) };
}
