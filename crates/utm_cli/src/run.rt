//! What a call does over the KDCFILE.
ghost use Rattle.std.specs.{Prelude.{◌≡◌, ◌++◌, ◌∷◌, [], List, ℕ, IsTrue, IfOk, OnOk, OnErr, IsErrOf}, String.{string_bytes}};
ghost use Rattle.kd_device.specs.{Device.{Frame, SameFaults, SameNames}, Rest.{Rests}};
ghost use Rattle.kdcfile_store.specs.{Kept.{IsKept}, Paged.{HasFile}};
ghost use Rattle.kdcs_types.specs.Tables.{TableRows};
ghost use Rattle.laws_of_states.specs.Suits.{Suits};
ghost use Rattle.device_acts.specs.Stands.{AreTables, KeepsTables};
ghost use Rattle.kdcfile_update.specs.Updating.{Stored, UpdateWrites};
ghost use Rattle.call_parts.specs.Asking.{CanRun, app_of, audit_errand, errand_for, gen_errand, looking_errand, making, one_errand, run_errand, storing_errand, task_word, update_errand};
ghost use Rattle.call_parts.specs.Opening.{Opens, OpeningRefuses, identity_of};
ghost use Rattle.utm_cli.specs.Doing.{UpdateTakes, UpdateRefuses, HoldsAll, AuditRefuses, Starts, Refuses, held_line, own};
ghost use Rattle.utm_cli.specs.Promise.{AttachedBy, HasRun, LeavesFile, LeavesLines, MayHandOn, SaysFront, SaysWhy, Tells, WritesFor};
ghost use Rattle.call_parts.specs.Leaving.{CallFailed, MayAttach};
ghost use Rattle.utm_cli.specs.Parts.{DoesOne, EndsOne, ErrandHalts, ErrandStops, ErrandWrites, Finds, HaltsFrom, HasTrailBytes, LooksBytes, LooksFront, RanActs, RanOpened};
ghost use Rattle.utm_cli.specs.Parts.{RanUpdate, StopsFrom, StopsInCut, StopsInUpdate, StopsOverStore, StoreWrites, WithinErrand, looked_by};
ghost use Rattle.refusals.specs.{declared.error.FileRefusal.{FileRefusal}, Lines.{file_line}, Statuses.{IsOneOf, status_of_file}};
ghost use Rattle.device_acts.specs.Said.{SameDisk, Said, SaidPart};
ghost use Rattle.call_parts.specs.MadeReport.{report_of};
ghost use Rattle.call_parts.specs.Words.{file_name};

use crate::made_run::made_report;
use abstract_monitor::Command;
use application_read::Application;
use audit_trail::Trail;
use call_parts::{CallError, Looking, OneFile, Storing, Task, Work, attach, look, open, report};
use device_acts::warm_start::OpenError;
use device_acts::{do_acts, say};
use device_run::run_script;
use kd_base::{Bytes, OutOfMemory, Sequence};
use kd_device::{Device, DeviceError};
use kdcfile_store::PagedStore;
use kdcfile_update::update;
use kdcs_types::Tables;
use monitor_core::Core;
use monitor_parts::output_lines::table_lines;
use refusals::{FileRefusal, Status, named, refuse_file};
use std::alloc::Global;
use trail_run::trail_words::{
    Verdict, audit_trail, trail_text, verdict_line, verdicts_exclude_each_other,
};

/// The report of the generation, over an opened store.
fn do_report<D: Device>(
    alloc: Global,
    device: &mut D,
    mut store: PagedStore,
    work: &Work,
) -> Result<(), DeviceError>
    requires kept { IsTrue (D.state device.old).told → IsKept (HasFile store) (D.state device.old) (D.leaves device.old) }
    ensures any { (t : TableRows) → KeepsTables (identity_of (gen_errand work.now)) store t → WithinErrand (gen_errand work.now) t (D.state device.old) (D.state device.new) (D.leaves device.old) (D.leaves device.new) }
    ensures put { (t : TableRows) → KeepsTables (identity_of (gen_errand work.now)) store t → ErrandWrites (gen_errand work.now) t (D.state device.old) (D.state device.new) }
    ensures done { OnOk result ((t : TableRows) → KeepsTables (identity_of (gen_errand work.now)) store t → RanActs (gen_errand work.now) t (D.state device.old) (D.state device.new) (D.leaves device.new)) }
    ensures fine { (IsErrOf result DeviceError.Failed → ⊥) → SameFaults (D.state device.old) (D.state device.new) }
    ensures failed { IsErrOf result DeviceError.Failed → CallFailed (D.state device.old) (D.state device.new) }
{
    let acts = report(alloc, &work.application.generation)?;
    do_acts(alloc, device, &mut store, acts.as_slice())
}

/// The script, from the tables that an opened store keeps, and how many commits it made.
fn do_script<D: Device>(
    alloc: Global,
    device: &mut D,
    store: PagedStore,
    tables: Tables,
    work: Work,
    commands: &Sequence<Command>,
) -> Result<u64, OpenError>
    requires can { CanRun (run_errand work commands.now) }
    requires tables { KeepsTables (identity_of (run_errand work commands.now)) store tables }
    requires suits { Suits work.application.generation tables }
    requires kept { IsTrue (D.state device.old).told → IsKept (HasFile store) (D.state device.old) (D.leaves device.old) }
    ensures any { WithinErrand (run_errand work commands.now) tables (D.state device.old) (D.state device.new) (D.leaves device.old) (D.leaves device.new) }
    ensures put { ErrandWrites (run_errand work commands.now) tables (D.state device.old) (D.state device.new) }
    ensures stopped { OnErr result (ErrandStops (run_errand work commands.now) tables (D.state device.old) (D.state device.new)) }
    ensures halted { IsErrOf result OpenError.Failed → ErrandHalts (run_errand work commands.now) tables (D.state device.old) (D.state device.new) }
    ensures done { OnOk result (RanActs (run_errand work commands.now) tables (D.state device.old) (D.state device.new) (D.leaves device.new)) }
    ensures fine { (IsErrOf result OpenError.Failed → ⊥) → SameFaults (D.state device.old) (D.state device.new) }
    ensures failed { IsErrOf result OpenError.Failed → CallFailed (D.state device.old) (D.state device.new) }
    ensures refused { IsErrOf result OpenError.NotKdcfile → IsTrue (D.state device.old).told → ⊥ }
    ensures other { (stored : List ℕ) → IsErrOf result (OpenError.OtherGeneration stored) → IsTrue (D.state device.old).told → ⊥ }
{
    let Work {
        application,
        fingerprint,
    } = work;
    let Application { generation, units } = application;
    let core = Core::start(alloc, generation, units, tables)?;
    let mut done = 0;
    run_script(
        alloc,
        device,
        store,
        core,
        &fingerprint,
        commands.as_slice(),
        &mut done,
    )
}

/// What is kept, from the tables that an opened store keeps: the report of the generation, or the script.
fn do_storing<D: Device>(
    alloc: Global,
    device: &mut D,
    store: PagedStore,
    tables: Tables,
    work: Work,
    storing: Storing,
) -> Result<(), CallError>
    requires can { CanRun (storing_errand work storing) }
    requires tables { KeepsTables (identity_of (storing_errand work storing)) store tables }
    requires suits { Suits work.application.generation tables }
    requires kept { IsTrue (D.state device.old).told → IsKept (HasFile store) (D.state device.old) (D.leaves device.old) }
    ensures any { WithinErrand (storing_errand work storing) tables (D.state device.old) (D.state device.new) (D.leaves device.old) (D.leaves device.new) }
    ensures put { ErrandWrites (storing_errand work storing) tables (D.state device.old) (D.state device.new) }
    ensures stopped { OnErr result (ErrandStops (storing_errand work storing) tables (D.state device.old) (D.state device.new)) }
    ensures halted { IsErrOf result CallError.Failed → ErrandHalts (storing_errand work storing) tables (D.state device.old) (D.state device.new) }
    ensures done { OnOk result (RanActs (storing_errand work storing) tables (D.state device.old) (D.state device.new) (D.leaves device.new)) }
    ensures fine { (IsErrOf result CallError.Failed → ⊥) → SameFaults (D.state device.old) (D.state device.new) }
    ensures failed { IsErrOf result CallError.Failed → CallFailed (D.state device.old) (D.state device.new) }
    ensures refused { (why : FileRefusal) → IsErrOf result (CallError.Refused why) → IsTrue (D.state device.old).told → ⊥ }
{
    match storing {
        Storing::Report => Ok(do_report(alloc, device, store, &work)?),
        Storing::Script(commands) => {
            do_script(alloc, device, store, tables, work, &commands)?;
            Ok(())
        }
    }
}

/// The report of the generation or the script, over the KDCFILE of this name, which is made where it is empty.
fn run_stored<D: Device>(
    alloc: Global,
    device: &mut D,
    name: &[u8],
    work: Work,
    storing: Storing,
) -> Result<(), CallError>
    requires can { CanRun (storing_errand work storing) }
    ensures done { OnOk result (RanOpened (storing_errand work storing) (D.state device.old) (D.state device.new) (D.leaves device.new)) }
    ensures refused { (why : FileRefusal) → IsErrOf result (CallError.Refused why) → IsTrue (D.state device.old).told → OpeningRefuses (storing_errand work storing) (D.state device.old).holds why }
    ensures fine { (IsErrOf result CallError.Failed → ⊥) → SameFaults (D.state device.old) (D.state device.new) }
    ensures failed { IsErrOf result CallError.Failed → CallFailed (D.state device.old) (D.state device.new) }

    // A file that the call does not start from stays as it is.
    ensures still { IsTrue (D.state device.old).told → ((t : TableRows) → Opens (storing_errand work storing) (D.state device.old).holds t → ⊥) → Rests (D.state device.old) (D.state device.new) (D.leaves device.old) (D.leaves device.new) }

    ensures any_moment { StopsOverStore (storing_errand work storing) (D.state device.old) (D.state device.new) (D.leaves device.old) (D.leaves device.new) }
    ensures written { IsTrue (D.state device.old).told → StoreWrites (storing_errand work storing) (D.state device.old) (D.state device.new) }
    ensures stopped { OnErr result ((t : TableRows) → Opens (storing_errand work storing) (D.state device.old).holds t → ErrandStops (storing_errand work storing) t (D.state device.old) (D.state device.new)) }
    ensures halted { IsErrOf result CallError.Failed → (t : TableRows) → Opens (storing_errand work storing) (D.state device.old).holds t → ErrandHalts (storing_errand work storing) t (D.state device.old) (D.state device.new) }
    ensures left { IsTrue (D.state device.old).told → (t : TableRows) → Opens (storing_errand work storing) (D.state device.old).holds t → ((D.state device.old).holds ≡ [] → ⊥) → LeavesLines (storing_errand work storing) (own (storing_errand work storing) t) (D.state device.old) (D.state device.new) }
    ensures names { IsTrue (D.state device.old).told → MayAttach name.now (D.state device.old) (D.state device.new) }
    ensures named { OnOk result (IsTrue (D.state device.old).told → (D.state device.new).names ≡ (D.state device.old).names ++ name.now ∷ []) }
    ensures frame { Frame (D.state device.old) (D.state device.new) }
{
    let generation = &work.application.generation;
    let (store, tables) = open(alloc, device, name, generation, &work.fingerprint)?;
    do_storing(alloc, device, store, tables, work, storing)
}

/// What is sent of tables: their list, or the text of the trail of the run of a script from them.
pub(crate) fn lines_of(
    alloc: Global,
    work: Work,
    tables: Tables,
    looking: Looking,
) -> Result<Bytes, OutOfMemory>
    requires can { CanRun (looking_errand work looking) }
    requires tables { AreTables tables }
    requires suits { Suits work.application.generation tables }
    ensures lines { IfOk result (λ lines. lines ≡ looked_by looking (looking_errand work looking) tables) }
    ensures bytes { IfOk result (λ _. LooksBytes (looking_errand work looking) tables) }
{
    match looking {
        Looking::Listing => Ok(table_lines(alloc, &tables)?),
        Looking::Trail(commands) => {
            let Work {
                application,
                fingerprint,
            } = work;
            let Application { generation, units } = application;
            trail_text(
                alloc,
                generation,
                units,
                tables,
                &fingerprint,
                commands.as_slice(),
            )
        }
    }
}

/// What is sent of the tables of the KDCFILE of this name, which stays as it is.
fn look_over<D: Device>(
    alloc: Global,
    device: &mut D,
    name: &[u8],
    work: Work,
    looking: Looking,
) -> Result<(), CallError>
    requires can { CanRun (looking_errand work looking) }
    ensures done { OnOk result (IsTrue (D.state device.old).told → (t : TableRows) × Opens (looking_errand work looking) (D.state device.old).holds t × Said (looked_by looking (looking_errand work looking) t) (D.state device.old) (D.state device.new) × LooksBytes (looking_errand work looking) t) }
    ensures refused { (why : FileRefusal) → IsErrOf result (CallError.Refused why) → IsTrue (D.state device.old).told → OpeningRefuses (looking_errand work looking) (D.state device.old).holds why }
    ensures fine { (IsErrOf result CallError.Failed → ⊥) → SameFaults (D.state device.old) (D.state device.new) }
    ensures failed { IsErrOf result CallError.Failed → CallFailed (D.state device.old) (D.state device.new) }

    // Nothing is said of a file that is not opened, and else a front of the lines.
    ensures still { IsTrue (D.state device.old).told → ((t : TableRows) → Opens (looking_errand work looking) (D.state device.old).holds t → ⊥) → Rests (D.state device.old) (D.state device.new) (D.leaves device.old) (D.leaves device.new) }
    ensures front { LooksFront looking (looking_errand work looking) (D.state device.old) (D.state device.new) (D.leaves device.old) (D.leaves device.new) }
    ensures unwritten { IsTrue (D.state device.old).told → (D.state device.new).put ≡ (D.state device.old).put }

    ensures names { IsTrue (D.state device.old).told → MayAttach name.now (D.state device.old) (D.state device.new) }
    ensures named { OnOk result (IsTrue (D.state device.old).told → (D.state device.new).names ≡ (D.state device.old).names ++ name.now ∷ []) }
    ensures frame { Frame (D.state device.old) (D.state device.new) }
{
    let generation = &work.application.generation;
    let tables = look(alloc, device, name, generation, &work.fingerprint)?;
    let lines = lines_of(alloc, work, tables, looking)?;
    Ok(say(device, lines.as_slice())?)
}

/// What an audit of the trail finds.
fn verdict_of(alloc: Global, work: &Work, trail: Trail) -> Result<Verdict, OutOfMemory>
    requires can { CanRun (audit_errand work.now trail) }
    ensures { IfOk result (Finds (audit_errand work.now trail)) }
{
    let application = &work.application;
    audit_trail(alloc, &application.generation, &application.units, trail)
}

/// The line of the trail, all of whose entries hold.
pub(crate) fn audit_line(alloc: Global, work: &Work, trail: Trail) -> Result<String, CallError>
    requires can { CanRun (audit_errand work.now trail) }
    ensures line { IfOk result (λ line. (t : TableRows) × HoldsAll (audit_errand work.now trail) (own (audit_errand work.now trail) t) × (string_bytes line ≡ held_line (audit_errand work.now trail))) }
    ensures refused { (why : FileRefusal) → IsErrOf result (CallError.Refused why) → AuditRefuses (audit_errand work.now trail) why }
    ensures fine { IsErrOf result CallError.Failed → ⊥ }
{
    let verdict = verdict_of(alloc, work, trail)?;
    if let Verdict::Differs(number) = verdict {
        return Err(CallError::Refused(FileRefusal::Differs(number)));
    }
    let Ok(line) = verdict_line(alloc, &verdict) else {
        return Err(CallError::Memory);
    };
    Ok(line)
}

/// The line of the trail, all of whose entries hold. No KDCFILE is looked into.
fn audit<D: Device>(
    alloc: Global,
    device: &mut D,
    work: &Work,
    trail: Trail,
) -> Result<(), CallError>
    requires can { CanRun (audit_errand work.now trail) }
    ensures done { OnOk result ((s : Stored) × HoldsAll (audit_errand work.now trail) s × (IsTrue (D.state device.old).told → Said (held_line (audit_errand work.now trail)) (D.state device.old) (D.state device.new))) }
    ensures refused { (why : FileRefusal) → IsErrOf result (CallError.Refused why) → AuditRefuses (audit_errand work.now trail) why }
    ensures fine { (IsErrOf result CallError.Failed → ⊥) → SameFaults (D.state device.old) (D.state device.new) }
    ensures failed { IsErrOf result CallError.Failed → CallFailed (D.state device.old) (D.state device.new) }

    // Nothing is said of a trail that does not hold, and else a front of the line.
    ensures still { IsTrue (D.state device.old).told → ((s : Stored) → HoldsAll (audit_errand work.now trail) s → ⊥) → Rests (D.state device.old) (D.state device.new) (D.leaves device.old) (D.leaves device.new) }
    ensures front { IsTrue (D.state device.old).told → SaysFront (held_line (audit_errand work.now trail)) (D.state device.old) (D.state device.new) (D.leaves device.old) (D.leaves device.new) }
    ensures frame { Frame (D.state device.old) (D.state device.new) }
    ensures names { SameNames (D.state device.old) (D.state device.new) }
{
    let line = audit_line(alloc, work, trail)?;
    Ok(say(device, line.as_bytes())?)
}

/// The KDCFILE of this name is carried to the generation.
fn update_over<D: Device>(
    alloc: Global,
    device: &mut D,
    name: &[u8],
    work: &Work,
) -> Result<(), CallError>
    ensures done { OnOk result (RanUpdate (update_errand work.now) (D.state device.old) (D.state device.new) (D.leaves device.new)) }
    ensures refused { (why : FileRefusal) → IsErrOf result (CallError.Refused why) → IsTrue (D.state device.old).told → UpdateRefuses (update_errand work.now) (D.state device.old).holds why }
    ensures fine { (IsErrOf result CallError.Failed → ⊥) → SameFaults (D.state device.old) (D.state device.new) }
    ensures failed { IsErrOf result CallError.Failed → CallFailed (D.state device.old) (D.state device.new) }

    // A file that is not taken stays as it is.
    ensures still { IsTrue (D.state device.old).told → ((s : Stored) → UpdateTakes (update_errand work.now) (D.state device.old).holds s → ⊥) → Rests (D.state device.old) (D.state device.new) (D.leaves device.old) (D.leaves device.new) }

    ensures any_moment { StopsInUpdate (update_errand work.now) (D.state device.old) (D.state device.new) (D.leaves device.old) (D.leaves device.new) }
    ensures written { IsTrue (D.state device.old).told → UpdateWrites work.now.application.generation work.now.fingerprint (D.state device.old) (D.state device.new) }
    ensures left { IsTrue (D.state device.old).told → (s : Stored) → UpdateTakes (update_errand work.now) (D.state device.old).holds s → s.identity ≡ identity_of (update_errand work.now) → SameDisk (D.state device.old) (D.state device.new) }
    ensures names { IsTrue (D.state device.old).told → MayAttach name.now (D.state device.old) (D.state device.new) }
    ensures named { OnOk result (IsTrue (D.state device.old).told → (D.state device.new).names ≡ (D.state device.old).names ++ name.now ∷ []) }
    ensures frame { Frame (D.state device.old) (D.state device.new) }
{
    attach(device, name)?;
    let generation = &work.application.generation;
    Ok(update(alloc, device, generation, &work.fingerprint)?)
}

/// The task: over the KDCFILE of this name, or aside of it.
fn run_over<D: Device>(
    alloc: Global,
    device: &mut D,
    name: &[u8],
    work: Work,
    task: Task,
) -> Result<(), CallError>
    requires can { CanRun (errand_for work task) }
    ensures { DoesOne (errand_for work task) name.now result (D.state device.old) (D.state device.new) (D.leaves device.old) (D.leaves device.new) }
{
    match task {
        Task::Store(storing) => run_stored(alloc, device, name, work, storing),
        Task::Look(looking) => look_over(alloc, device, name, work, looking),
        Task::Update => update_over(alloc, device, name, &work),
        Task::Audit(trail) => audit(alloc, device, &work, trail),
    }
}

/// The task, over the KDCFILE of this BASE where it looks into one.
fn run_task<D: Device>(alloc: Global, device: &mut D, base: &[u8], work: Work, task: Task) -> Status
    requires can { CanRun (errand_for work task) }
    ensures code { IsOneOf (0 ∷ 4 ∷ 5 ∷ 7 ∷ 8 ∷ []) result.code }

    // A file that is refused, or a trail that does not hold.
    ensures refused { Tells (task_word task) (D.state device.old).told → (why : FileRefusal) → Refuses (errand_for work task) (D.state device.old).holds why → IsOneOf (status_of_file why ∷ 5 ∷ 7 ∷ []) result.code }
    ensures refused_only { IsOneOf (4 ∷ 8 ∷ []) result.code → Tells (task_word task) (D.state device.old).told → SaysWhy (errand_for work task) result.code (D.state device.old) (D.state device.new) }
    ensures refused_part { IsTrue (D.state device.old).told → (why : FileRefusal) → Refuses (errand_for work task) (D.state device.old).holds why → SaidPart (file_line why) (D.state device.old) (D.state device.new) }

    // A file that is accepted.
    ensures accepted { Tells (task_word task) (D.state device.old).told → (s : Stored) → Starts (errand_for work task) (D.state device.old).holds s → IsOneOf (0 ∷ 5 ∷ 7 ∷ []) result.code }
    ensures done { result.code ≡ 0 → Tells (task_word task) (D.state device.old).told → HasRun (errand_for work task) (D.state device.old) (D.state device.new) (D.leaves device.new) }
    ensures any_moment { StopsInCut (errand_for work task) (D.state device.old) (D.state device.new) (D.leaves device.old) (D.leaves device.new) }
    ensures written { IsTrue (D.state device.old).told → WritesFor (errand_for work task) (D.state device.old) (D.state device.new) }

    // A file that is there stays as it is where nothing is written, and under `show`, `trail` and `audit` any file does.
    ensures left { IsTrue (D.state device.old).told → (s : Stored) → Starts (errand_for work task) (D.state device.old).holds s → LeavesFile (errand_for work task) s (D.state device.old) (D.state device.new) }

    // A text of `trail` that was sent says bytes alone.
    ensures bytes { result.code ≡ 0 → IsTrue (D.state device.old).told → (s : Stored) → Starts (errand_for work task) (D.state device.old).holds s → HasTrailBytes (errand_for work task) s }
    ensures names { IsTrue (D.state device.old).told → MayHandOn (task_word task) (file_name base.now) (D.state device.old) (D.state device.new) }
    ensures attached { result.code ≡ 0 → IsTrue (D.state device.old).told → AttachedBy (task_word task) base.now (D.state device.old) (D.state device.new) }
    ensures fine { (result.code ≡ 5 → ⊥) → SameFaults (D.state device.old) (D.state device.new) }
    ensures failed { result.code ≡ 5 → CallFailed (D.state device.old) (D.state device.new) }

    // A run that stopped.
    ensures stopped { IsOneOf (5 ∷ 7 ∷ []) result.code → StopsFrom (errand_for work task) (D.state device.old) (D.state device.new) }
    ensures halted { result.code ≡ 5 → HaltsFrom (errand_for work task) (D.state device.old) (D.state device.new) }
    ensures frame { Frame (D.state device.old) (D.state device.new) }
{
    verdicts_exclude_each_other();
    let Ok(name) = named(alloc, base, b".KDCA") else {
        return Status::MEMORY;
    };
    match run_over(alloc, device, &name, work, task) {
        Ok(()) => Status::DONE,
        Err(CallError::Failed) => Status::DEVICE,
        Err(CallError::Memory) => Status::MEMORY,
        Err(CallError::Refused(why)) => refuse_file(alloc, device, &why),
    }
}

/// The report of the made input, which is run on a device of its own.
fn report_made<D: Device>(
    alloc: Global,
    device: &mut D,
    inputs: u32,
    work: Work,
    commands: &Sequence<Command>,
) -> Result<(), DeviceError>
    requires can { CanRun (making inputs work commands.now) }
    ensures done { OnOk result (IsTrue (D.state device.old).told → Said (report_of inputs (app_of (making inputs work commands.now)) commands.now) (D.state device.old) (D.state device.new)) }
    ensures fine { (IsErrOf result DeviceError.Failed → ⊥) → SameFaults (D.state device.old) (D.state device.new) }
    ensures failed { IsErrOf result DeviceError.Failed → CallFailed (D.state device.old) (D.state device.new) }
    ensures front { IsTrue (D.state device.old).told → SaysFront (report_of inputs (app_of (making inputs work commands.now)) commands.now) (D.state device.old) (D.state device.new) (D.leaves device.old) (D.leaves device.new) }
    ensures frame { Frame (D.state device.old) (D.state device.new) }
    ensures names { SameNames (D.state device.old) (D.state device.new) }
{
    let Work {
        application,
        fingerprint,
    } = work;
    let Application { generation, units } = application;
    let lines = made_report(
        alloc,
        inputs,
        generation,
        units,
        &fingerprint,
        commands.as_slice(),
    )?;
    say(device, lines.as_slice())
}

/// The run of the made input, whatever the file.
fn make<D: Device>(
    alloc: Global,
    device: &mut D,
    inputs: u32,
    work: Work,
    commands: &Sequence<Command>,
) -> Status
    requires can { CanRun (making inputs work commands.now) }
    ensures { (base : List ℕ) → EndsOne (making inputs work commands.now) base (D.state device.old) (D.state device.new) (D.leaves device.old) (D.leaves device.new) result.code }
{
    match report_made(alloc, device, inputs, work, commands) {
        Ok(()) => Status::DONE,
        Err(DeviceError::Failed) => Status::DEVICE,
        Err(DeviceError::Memory) => Status::MEMORY,
    }
}

/// Does what is asked for, over the KDCFILE of this BASE where it has one.
pub(crate) fn run<D: Device>(alloc: Global, device: &mut D, base: &[u8], asked: OneFile) -> Status
    requires can { CanRun (one_errand asked) }
    ensures { EndsOne (one_errand asked) base.now (D.state device.old) (D.state device.new) (D.leaves device.old) (D.leaves device.new) result.code }
{
    match asked {
        OneFile::Over(work, task) => run_task(alloc, device, base, work, task),
        OneFile::Make(inputs, work, commands) => make(alloc, device, inputs, work, &commands),
    }
}
