//! What a call does over two copies of its KDCFILE.
ghost use Rattle.std.specs.Prelude.{◌≡◌, ◌∷◌, [], IsSome, IsTrue, OnOk, IsErrOf, List, ℕ};
ghost use Rattle.kdcs_types.specs.Tables.{TableRows};
ghost use Rattle.laws_of_states.specs.Suits.{Suits};
ghost use Rattle.kdcfile_double.specs.{Opening.{KeepsTablesTwice, SameFiles}, Twice.{FineTwice, IsKeptTwice, IsOpen, identity_of}};
ghost use Rattle.refusals.specs.{declared.error.FileRefusal.{FileRefusal}, Lines.{file_line}, Statuses.{IsOneOf, status_of_file}};
ghost use Rattle.twin_run.specs.Running.{FailsTwice, RanTwice, WithinTwice};
ghost use Rattle.call_parts.specs.Asking.{CanRun, audit_errand, errand_for, gen_errand, looking_errand, run_errand, storing_errand, task_word};
ghost use Rattle.utm_cli.specs.DoingTwo.{KeepsTwo, RefusesTwo, StartsTwo, acts_two};
ghost use Rattle.call_parts.specs.Opening.{identity_of_two};
ghost use Rattle.utm_cli.specs.Parts.{LooksBytes};
ghost use Rattle.utm_cli.specs.PartsTwo.{DoesTwo};
ghost use Rattle.utm_cli.specs.PromiseTwo.{AttachesTwoBy, EndsTwo, MayAttachTwoBy, SaysWhyTwo, StopsTwo, TellsTwo};
ghost use Rattle.call_parts.specs.LeavingTwo.{FailsTwo, FaultsTwo, FineTwo, FrameTwin, SaysPartTwo};

use crate::run::{audit_line, lines_of};
use abstract_monitor::Command;
use application_read::Application;
use audit_trail::Trail;
use call_parts::{
    CallError, Cause, Looking, Storing, Task, Work, look_at_copies, open_copies, refuse_beside,
    report,
};
use device_acts::warm_start::{OpenError, limits_of};
use kd_base::Sequence;
use kd_device::{DeviceError, Twin};
use kdcfile_copies::kdcfile_halves::say_both;
use kdcfile_double::TwinStore;
use kdcs_types::Tables;
use monitor_core::Core;
use refusals::{FileRefusal, Status};
use std::alloc::Global;
use trail_run::trail_words::verdicts_exclude_each_other;
use twin_run::{run_twice, send_twice};

/// The report of the generation, over copies that were opened.
fn report_copies<T: Twin>(
    alloc: Global,
    twin: &mut T,
    store: TwinStore,
    work: &Work,
) -> Result<(), DeviceError>
    requires is_open { IsOpen store }
    requires identity { identity_of store ≡ identity_of_two (gen_errand work.now) }
    requires kept { IsTrue (T.both twin.old).told → IsKeptTwice store (T.both twin.old) (T.leaves twin.old) }
    ensures any { (t : TableRows) → KeepsTablesTwice (identity_of_two (gen_errand work.now)) store t → WithinTwice (identity_of_two (gen_errand work.now)) store t (acts_two (gen_errand work.now) t) (T.both twin.old) (T.both twin.new) (T.leaves twin.old) (T.leaves twin.new) }
    ensures done { OnOk result (IsTrue (T.both twin.old).told → (t : TableRows) → KeepsTablesTwice (identity_of_two (gen_errand work.now)) store t → RanTwice (identity_of_two (gen_errand work.now)) store t (acts_two (gen_errand work.now) t) (T.both twin.old) (T.both twin.new) (T.leaves twin.new)) }
    ensures failed { IsErrOf result DeviceError.Failed → FailsTwice store (T.both twin.old) (T.both twin.new) }
    ensures fine { (IsErrOf result DeviceError.Failed → ⊥) → FineTwice store (T.both twin.old) (T.both twin.new) }
{
    let generation = &work.application.generation;
    let acts = report(alloc, generation)?;
    let limits = limits_of(generation);
    send_twice(
        alloc,
        twin,
        store,
        limits,
        &work.fingerprint,
        acts.as_slice(),
    )
}

/// The script, from the tables of copies that were opened.
fn script_copies<T: Twin>(
    alloc: Global,
    twin: &mut T,
    store: TwinStore,
    tables: Tables,
    work: Work,
    commands: &Sequence<Command>,
) -> Result<(), OpenError>
    requires can { CanRun (run_errand work commands.now) }
    requires is_open { IsOpen store }
    requires tables { KeepsTablesTwice (identity_of_two (run_errand work commands.now)) store tables }
    requires suits { Suits work.application.generation tables }
    requires kept { IsTrue (T.both twin.old).told → IsKeptTwice store (T.both twin.old) (T.leaves twin.old) }
    ensures any { WithinTwice (identity_of_two (run_errand work commands.now)) store tables (acts_two (run_errand work commands.now) tables) (T.both twin.old) (T.both twin.new) (T.leaves twin.old) (T.leaves twin.new) }
    ensures done { OnOk result (IsTrue (T.both twin.old).told → RanTwice (identity_of_two (run_errand work commands.now)) store tables (acts_two (run_errand work commands.now) tables) (T.both twin.old) (T.both twin.new) (T.leaves twin.new)) }
    ensures failed { IsErrOf result OpenError.Failed → FailsTwice store (T.both twin.old) (T.both twin.new) }
    ensures fine { (IsErrOf result OpenError.Failed → ⊥) → FineTwice store (T.both twin.old) (T.both twin.new) }
    ensures refused { IsErrOf result OpenError.NotKdcfile → IsTrue (T.both twin.old).told → ⊥ }
    ensures other { (stored : List ℕ) → IsErrOf result (OpenError.OtherGeneration stored) → IsTrue (T.both twin.old).told → ⊥ }
{
    let Work {
        application,
        fingerprint,
    } = work;
    let Application { generation, units } = application;
    let limits = limits_of(&generation);
    let core = Core::start(alloc, generation, units, tables)?;
    run_twice(
        alloc,
        twin,
        store,
        core,
        limits,
        &fingerprint,
        commands.as_slice(),
    )
}

/// What is kept, from the tables of copies that were opened: the report of the generation, or the script.
fn run_copies<T: Twin>(
    alloc: Global,
    twin: &mut T,
    store: TwinStore,
    tables: Tables,
    work: Work,
    storing: Storing,
) -> Result<(), CallError>
    requires can { CanRun (storing_errand work storing) }
    requires is_open { IsOpen store }
    requires tables { KeepsTablesTwice (identity_of_two (storing_errand work storing)) store tables }
    requires suits { Suits work.application.generation tables }
    requires kept { IsTrue (T.both twin.old).told → IsKeptTwice store (T.both twin.old) (T.leaves twin.old) }
    ensures any { WithinTwice (identity_of_two (storing_errand work storing)) store tables (acts_two (storing_errand work storing) tables) (T.both twin.old) (T.both twin.new) (T.leaves twin.old) (T.leaves twin.new) }
    ensures done { OnOk result (IsTrue (T.both twin.old).told → RanTwice (identity_of_two (storing_errand work storing)) store tables (acts_two (storing_errand work storing) tables) (T.both twin.old) (T.both twin.new) (T.leaves twin.new)) }
    ensures failed { IsErrOf result CallError.Failed → FailsTwice store (T.both twin.old) (T.both twin.new) }
    ensures fine { (IsErrOf result CallError.Failed → ⊥) → FineTwice store (T.both twin.old) (T.both twin.new) }
    ensures refused { (why : FileRefusal) → IsErrOf result (CallError.Refused why) → IsTrue (T.both twin.old).told → ⊥ }
{
    match storing {
        Storing::Report => Ok(report_copies(alloc, twin, store, &work)?),
        Storing::Script(commands) => {
            Ok(script_copies(alloc, twin, store, tables, work, &commands)?)
        }
    }
}

/// The report of the generation or the script, over the two files of this BASE, which are made where both are empty.
fn keep_copies<T: Twin>(
    alloc: Global,
    twin: &mut T,
    base: &[u8],
    work: Work,
    storing: Storing,
) -> Result<(), CallError>
    requires can { CanRun (storing_errand work storing) }
    requires double { IsSome work.application.generation.double }
    ensures { DoesTwo (storing_errand work storing) base.now result (T.both twin.old) (T.both twin.new) (T.leaves twin.old) (T.leaves twin.new) }
{
    let generation = &work.application.generation;
    let (store, tables) = open_copies(alloc, twin, base, generation, &work.fingerprint)?;
    run_copies(alloc, twin, store, tables, work, storing)
}

/// What is sent of the tables of the copy that counts. Both files stay as they are.
fn look_copies<T: Twin>(
    alloc: Global,
    twin: &mut T,
    base: &[u8],
    work: Work,
    looking: Looking,
) -> Result<(), CallError>
    requires can { CanRun (looking_errand work looking) }
    requires double { IsSome work.application.generation.double }
    ensures { DoesTwo (looking_errand work looking) base.now result (T.both twin.old) (T.both twin.new) (T.leaves twin.old) (T.leaves twin.new) }
{
    let generation = &work.application.generation;
    let tables = look_at_copies(alloc, twin, base, generation, &work.fingerprint)?;
    let lines = lines_of(alloc, work, tables, looking)?;
    Ok(say_both(twin, lines.as_slice())?)
}

/// The line of the trail, all of whose entries hold. No file is looked into.
fn audit_copies<T: Twin>(
    alloc: Global,
    twin: &mut T,
    work: &Work,
    trail: Trail,
) -> Result<(), CallError>
    requires can { CanRun (audit_errand work.now trail) }
    ensures { (base : List ℕ) → DoesTwo (audit_errand work.now trail) base result (T.both twin.old) (T.both twin.new) (T.leaves twin.old) (T.leaves twin.new) }
{
    let line = audit_line(alloc, work, trail)?;
    Ok(say_both(twin, line.as_bytes())?)
}

/// The task: over the two files of this BASE, or aside of them.
fn over_copies<T: Twin>(
    alloc: Global,
    twin: &mut T,
    base: &[u8],
    work: Work,
    task: Task,
) -> Result<(), CallError>
    requires can { CanRun (errand_for work task) }
    requires double { IsSome work.application.generation.double }
    ensures { DoesTwo (errand_for work task) base.now result (T.both twin.old) (T.both twin.new) (T.leaves twin.old) (T.leaves twin.new) }
{
    match task {
        Task::Store(storing) => keep_copies(alloc, twin, base, work, storing),
        Task::Look(looking) => look_copies(alloc, twin, base, work, looking),
        Task::Update => Err(CallError::Refused(FileRefusal::TwoCopies)),
        Task::Audit(trail) => audit_copies(alloc, twin, &work, trail),
    }
}

/// Does the task, over the two files of this BASE.
pub(crate) fn double<T: Twin>(
    alloc: Global,
    twin: &mut T,
    base: &[u8],
    work: Work,
    task: Task,
) -> Status
    requires can { CanRun (errand_for work task) }
    requires double { IsSome work.application.generation.double }
    ensures code { IsOneOf (0 ∷ 4 ∷ 5 ∷ 7 ∷ 8 ∷ []) result.code }
    ensures done { result.code ≡ 0 → TellsTwo (task_word task) (T.both twin.old).told → EndsTwo (errand_for work task) (T.both twin.old) (T.both twin.new) (T.leaves twin.new) }
    ensures refused { TellsTwo (task_word task) (T.both twin.old).told → (why : FileRefusal) → RefusesTwo (errand_for work task) (T.both twin.old) why → IsOneOf (status_of_file why ∷ 5 ∷ 7 ∷ []) result.code }
    ensures refused_part { IsTrue (T.both twin.old).told → (why : FileRefusal) → RefusesTwo (errand_for work task) (T.both twin.old) why → SaysPartTwo (file_line why) (T.both twin.old) (T.both twin.new) }
    ensures refused_only { IsOneOf (4 ∷ 8 ∷ []) result.code → TellsTwo (task_word task) (T.both twin.old).told → SaysWhyTwo (errand_for work task) result.code (T.both twin.old) (T.both twin.new) }
    ensures accepted { TellsTwo (task_word task) (T.both twin.old).told → (t : TableRows) → StartsTwo (errand_for work task) (T.both twin.old) t → IsOneOf (0 ∷ 5 ∷ 7 ∷ []) result.code }
    ensures device { result.code ≡ 5 → FaultsTwo (T.both twin.old) (T.both twin.new) }
    ensures device_told { result.code ≡ 5 → IsTrue (T.both twin.old).told → FailsTwo (T.both twin.old) (T.both twin.new) }
    ensures fine { (result.code ≡ 5 → ⊥) → FineTwo (T.both twin.old) (T.both twin.new) }
    ensures left { IsTrue (T.both twin.old).told → (KeepsTwo (task_word task) → ⊥) → SameFiles (T.both twin.old) (T.both twin.new) }
    ensures any_moment { IsTrue (T.both twin.old).told → (t : TableRows) → StartsTwo (errand_for work task) (T.both twin.old) t → StopsTwo (errand_for work task) t (T.both twin.old) (T.both twin.new) (T.leaves twin.old) (T.leaves twin.new) }
    ensures bytes { result.code ≡ 0 → IsTrue (T.both twin.old).told → (t : TableRows) → StartsTwo (errand_for work task) (T.both twin.old) t → LooksBytes (errand_for work task) t }
    ensures names { IsTrue (T.both twin.old).told → MayAttachTwoBy (task_word task) base.now (T.both twin.old) (T.both twin.new) }
    ensures named { result.code ≡ 0 → IsTrue (T.both twin.old).told → AttachesTwoBy (task_word task) base.now (T.both twin.old) (T.both twin.new) }
    ensures frame { FrameTwin (T.both twin.old) (T.both twin.new) }
{
    verdicts_exclude_each_other();
    match over_copies(alloc, twin, base, work, task) {
        Ok(()) => Status::DONE,
        Err(CallError::Failed) => Status::DEVICE,
        Err(CallError::Memory) => Status::MEMORY,
        Err(CallError::Refused(why)) => refuse_beside(alloc, twin, Cause::Files(why)),
    }
}
