//! A whole script.
ghost use Rattle.std.specs.Prelude.{◌≡◌, ◌⊎◌, ◌≤◌, ◌+◌, ◌^◌, ℕ, List, IsTrue, IfOk, OnOk, OnErr, IsErrOf, length, sum_by};
ghost use Rattle.kd_device.specs.Device.{Rose, SameFaults};
ghost use Rattle.kdcfile_store.specs.{Kept.{IsKept}, Paged.{HasFile}};
ghost use Rattle.laws_of_states.specs.Keeping.{IsScriptOf};
ghost use Rattle.abstract_monitor.specs.{Commands.{acts_of}, Trace.{history}};
ghost use Rattle.laws_of_states.specs.Cut.{commits_in};
ghost use Rattle.monitor_core.specs.CoreSteps.{turns_of};
ghost use Rattle.device_acts.specs.Acting.{IsKeptBy, LineOrDisk};
ghost use Rattle.device_run.specs.Running.{Ran, IsRunning, StepsWrite, Stops, WithinSteps};
ghost use Rattle.device_run.specs.Keeping.{DidSteps, IsRunningWith, RanWith, StepsWriteWith, StopsWith, WithinStepsWith};

use crate::reopens::Reopens;
use crate::storing::Storing;
use crate::watcher::{Nobody, Watcher};
use abstract_monitor::Command;
use device_acts::SingleFile;
use device_acts::warm_start::OpenError;
use kd_device::Device;
use kdcfile_store::PagedStore;
use laws_of_states::laws_of_steps::steps_commit_once;
use monitor_core::Core;
use monitor_core::script_run::run_script as run_steps;
use std::alloc::Global;

/// The commands of a script in their order, from a core whose durable tables the keeper has; its files were made with this
/// fingerprint. Each act is done before the next turn or command, and the watcher sees each turn. The answer is the core
/// after them, from which further commands can go on, and how many commits were made; `done` is how many commands were
/// done, also where an error is answered.
pub fn run_on<K: Reopens, W: Watcher>(
    alloc: Global,
    keeper: &mut K,
    watcher: &mut W,
    core: Core,
    fingerprint: &[u8; 32],
    commands: &[Command],
    done: &mut usize,
) -> Result<(Core, u64), OpenError>
    requires ready { K.ready keeper.old }
    requires running { IsRunningWith fingerprint.now core (K.identity keeper.old) (K.kept keeper.old) }
    requires names { IsScriptOf core.application commands.now }
    requires steps { core.steps + sum_by turns_of commands.now ≤ 10 ^ 18 }
    requires kept { IsTrue (K.state keeper.old).told → IsKeptBy (K.file keeper.old) (K.state keeper.old) (K.leaves keeper.old) }
    ensures any { WithinStepsWith K.stands fingerprint.now core (history core.application core.state commands.now) (K.state keeper.old) (K.state keeper.new) (K.leaves keeper.old) (K.leaves keeper.new) }
    ensures put { StepsWriteWith K.stands K.commit_most fingerprint.now core (history core.application core.state commands.now) (K.state keeper.old) (K.state keeper.new) (K.leaves keeper.new) }
    ensures ready { OnOk result (K.ready keeper.new) }
    ensures did { IfOk result (λ r. DidSteps K.fine fingerprint.now core (history core.application core.state commands.now) r.0 (K.identity keeper.new) (K.kept keeper.new) (K.file keeper.new) (K.state keeper.old) (K.state keeper.new) (K.leaves keeper.new)) }
    ensures counted { IfOk result (λ r. IsTrue (K.state keeper.old).told → r.1 ≡ commits_in (acts_of (history core.application core.state commands.now))) }
    ensures all { OnOk result (done.new ≡ length commands.now) }
    // Of a RESTART nothing is said before the files are opened again.
    ensures stopped { OnErr result (StopsWith K.stands fingerprint.now core commands.now done.new (K.state keeper.old) (K.state keeper.new) (K.leaves keeper.new)) }
    ensures fine { (IsErrOf result OpenError.Failed → ⊥) → K.fine (K.state keeper.old) (K.state keeper.new) }
    ensures failed { IsErrOf result OpenError.Failed → Rose (K.state keeper.old).disk_faults (K.state keeper.new).disk_faults ⊎ Rose (K.state keeper.old).line_faults (K.state keeper.new).line_faults }
    // The disk fails at a commit, or where the files are opened again, alone.
    ensures halted { IsErrOf result OpenError.Failed → LineOrDisk (acts_of (history core.application core.state commands.now)) (K.state keeper.old) (K.state keeper.new) }
    ensures refused { IsErrOf result OpenError.NotKdcfile → IsTrue (K.state keeper.old).told → ⊥ }
    ensures other { (stored : List ℕ) → IsErrOf result (OpenError.OtherGeneration stored) → IsTrue (K.state keeper.old).told → ⊥ }
    ensures place { K.place keeper.new ≡ K.place keeper.old }
{
    steps_commit_once();
    let mut storing = Storing {
        keeper,
        fingerprint,
        commits: 0,
        watcher,
    };
    let last = run_steps(alloc, &mut storing, core, commands, done)?;
    Ok((last, storing.commits))
}

/// The commands of a script in their order, from a core whose durable tables the keeper has; its files were made with this
/// fingerprint. Each act is done before the next turn or command. What is open at the end of the script is given up, and
/// commits nothing. The answer is how many commits were made; `done` is how many commands were done, also where an error
/// is answered.
pub fn run_with<K: Reopens>(
    alloc: Global,
    keeper: &mut K,
    core: Core,
    fingerprint: &[u8; 32],
    commands: &[Command],
    done: &mut usize,
) -> Result<u64, OpenError>
    requires ready { K.ready keeper.old }
    requires running { IsRunningWith fingerprint.now core (K.identity keeper.old) (K.kept keeper.old) }
    requires names { IsScriptOf core.application commands.now }
    requires steps { core.steps + sum_by turns_of commands.now ≤ 10 ^ 18 }
    requires kept { IsTrue (K.state keeper.old).told → IsKeptBy (K.file keeper.old) (K.state keeper.old) (K.leaves keeper.old) }
    ensures any { WithinStepsWith K.stands fingerprint.now core (history core.application core.state commands.now) (K.state keeper.old) (K.state keeper.new) (K.leaves keeper.old) (K.leaves keeper.new) }
    ensures put { StepsWriteWith K.stands K.commit_most fingerprint.now core (history core.application core.state commands.now) (K.state keeper.old) (K.state keeper.new) (K.leaves keeper.new) }
    ensures done { OnOk result (IsTrue (K.state keeper.old).told → RanWith fingerprint.now core (history core.application core.state commands.now) (K.identity keeper.new) (K.kept keeper.new) (K.file keeper.new) (K.state keeper.old) (K.state keeper.new) (K.leaves keeper.new)) }
    ensures counted { IfOk result (λ n. IsTrue (K.state keeper.old).told → n ≡ commits_in (acts_of (history core.application core.state commands.now))) }
    ensures all { OnOk result (done.new ≡ length commands.now) }
    // Of a RESTART nothing is said before the files are opened again.
    ensures stopped { OnErr result (StopsWith K.stands fingerprint.now core commands.now done.new (K.state keeper.old) (K.state keeper.new) (K.leaves keeper.new)) }
    ensures fine { (IsErrOf result OpenError.Failed → ⊥) → K.fine (K.state keeper.old) (K.state keeper.new) }
    ensures failed { IsErrOf result OpenError.Failed → Rose (K.state keeper.old).disk_faults (K.state keeper.new).disk_faults ⊎ Rose (K.state keeper.old).line_faults (K.state keeper.new).line_faults }
    // The disk fails at a commit, or where the files are opened again, alone.
    ensures halted { IsErrOf result OpenError.Failed → LineOrDisk (acts_of (history core.application core.state commands.now)) (K.state keeper.old) (K.state keeper.new) }
    ensures refused { IsErrOf result OpenError.NotKdcfile → IsTrue (K.state keeper.old).told → ⊥ }
    ensures other { (stored : List ℕ) → IsErrOf result (OpenError.OtherGeneration stored) → IsTrue (K.state keeper.old).told → ⊥ }
    ensures place { K.place keeper.new ≡ K.place keeper.old }
{
    let (_, commits) = run_on(
        alloc,
        keeper,
        &mut Nobody,
        core,
        fingerprint,
        commands,
        done,
    )?;
    Ok(commits)
}

/// The commands of a script in their order, from a core whose durable tables the store keeps; its file was made with this
/// fingerprint. Each act is done before the next turn or command. What is open at the end of the script is given up, and
/// commits nothing. The answer is how many commits were made; `done` is how many commands were done, also where an error
/// is answered.
pub fn run_script<D: Device>(
    alloc: Global,
    device: &mut D,
    mut store: PagedStore,
    core: Core,
    fingerprint: &[u8; 32],
    commands: &[Command],
    done: &mut usize,
) -> Result<u64, OpenError>
    requires running { IsRunning fingerprint.now core store }
    requires names { IsScriptOf core.application commands.now }
    requires steps { core.steps + sum_by turns_of commands.now ≤ 10 ^ 18 }
    requires kept { IsTrue (D.state device.old).told → IsKept (HasFile store) (D.state device.old) (D.leaves device.old) }
    ensures any { WithinSteps fingerprint.now core (history core.application core.state commands.now) (D.state device.old) (D.state device.new) (D.leaves device.old) (D.leaves device.new) }
    ensures put { StepsWrite fingerprint.now core (history core.application core.state commands.now) (D.state device.old) (D.state device.new) }
    ensures done { OnOk result (IsTrue (D.state device.old).told → Ran fingerprint.now core (history core.application core.state commands.now) (D.state device.old) (D.state device.new) (D.leaves device.new)) }
    ensures counted { IfOk result (λ n. IsTrue (D.state device.old).told → n ≡ commits_in (acts_of (history core.application core.state commands.now))) }
    ensures all { OnOk result (done.new ≡ length commands.now) }
    // Of a RESTART nothing is said before the KDCFILE is opened again.
    ensures stopped { OnErr result (Stops fingerprint.now core commands.now done.new (D.state device.old) (D.state device.new)) }
    ensures fine { (IsErrOf result OpenError.Failed → ⊥) → SameFaults (D.state device.old) (D.state device.new) }
    ensures failed { IsErrOf result OpenError.Failed → Rose (D.state device.old).disk_faults (D.state device.new).disk_faults ⊎ Rose (D.state device.old).line_faults (D.state device.new).line_faults }
    // The disk fails at a commit, or where the KDCFILE is opened again, alone.
    ensures halted { IsErrOf result OpenError.Failed → LineOrDisk (acts_of (history core.application core.state commands.now)) (D.state device.old) (D.state device.new) }
    ensures refused { IsErrOf result OpenError.NotKdcfile → IsTrue (D.state device.old).told → ⊥ }
    ensures other { (stored : List ℕ) → IsErrOf result (OpenError.OtherGeneration stored) → IsTrue (D.state device.old).told → ⊥ }
{
    let mut keeper = SingleFile {
        device,
        store: &mut store,
    };
    run_with(alloc, &mut keeper, core, fingerprint, commands, done)
}
