//! The run of the commands over a device of its own, and its report.
ghost use Rattle.std.specs.Prelude.{◌≡◌, ◌≤◌, ◌+◌, ◌^◌, [], IfOk, sum_by};
ghost use Rattle.kd_device.specs.Sure.{sure_state, sure_leaves};
ghost use Rattle.kdcfile_store.specs.{Kept.{IsKept}, Paged.{HasFile}};
ghost use Rattle.kdcs_types.specs.Tables.{empty_tables};
ghost use Rattle.application_types.specs.Fitted.{IsFit};
ghost use Rattle.laws_of_runs.specs.Applied.{applied};
ghost use Rattle.laws_of_states.specs.{Keeping.{IsScriptOf}, Suits.{Suits}};
ghost use Rattle.abstract_monitor.specs.{Commands.{acts_of}, Trace.{history}};
ghost use Rattle.device_acts.specs.declared.warm_start.error.OpenError.TheVariants as errors;
ghost use Rattle.monitor_core.specs.CoreSteps.{durable_of, turns_of};
ghost use Rattle.device_run.specs.Running.{IsRunning};
ghost use Rattle.device_acts.specs.Stands.{KeepsTables, identity_for};
ghost use Rattle.call_parts.specs.MadeReport.{report_by, report_of};

use crate::made_run::stored::stored_tables;
use abstract_monitor::Command;
use application_types::generation::Generation;
use application_types::units::Units;
use call_parts::made_report_lines;
use device_acts::warm_start::{OpenError, open_tables};
use device_run::run_script;
use kd_base::{Bytes, OutOfMemory};
use kd_device::SureDevice;
use kdcfile_store::PagedStore;
use kdcs_types::Tables;
use monitor_core::Core;
use std::alloc::Global;

// The one error over a device of its own, which tells its content and never fails.
fn want_of_memory(error: OpenError) -> OutOfMemory
    requires { error ≡ errors.Memory }
{
    match error {
        OpenError::Memory => OutOfMemory,
        OpenError::Failed | OpenError::NotKdcfile | OpenError::OtherGeneration(_) => unreachable!(),
    }
}

// A device of its own, whose file was empty and keeps the empty tables.
fn opened(
    alloc: Global,
    generation: &Generation,
    fingerprint: &[u8; 32],
) -> Result<(SureDevice, PagedStore, Tables), OutOfMemory>
    ensures empty { IfOk result (λ o. o.2 ≡ empty_tables) }
    ensures tables { IfOk result (λ o. KeepsTables (identity_for generation.now fingerprint.now) o.1 o.2) }
    ensures suits { IfOk result (λ o. Suits generation.now o.2) }
    ensures kept { IfOk result (λ o. IsKept (HasFile o.1) (sure_state o.0) (sure_leaves o.0)) }
    ensures silent { IfOk result (λ o. (sure_state o.0).sent ≡ []) }
{
    let mut device = SureDevice::new(alloc, Bytes::new(alloc))?;
    match open_tables(alloc, &mut device, generation, fingerprint) {
        Ok((store, tables)) => Ok((device, store, tables)),
        Err(error) => Err(want_of_memory(OpenError::from(error))),
    }
}

// Runs the commands from a core whose durable tables the store keeps, over a device to which nothing was sent yet, and
// answers the lines on the run.
fn ran(
    alloc: Global,
    device: &mut SureDevice,
    store: PagedStore,
    core: Core,
    fingerprint: &[u8; 32],
    n: u32,
    commands: &[Command],
) -> Result<Bytes, OutOfMemory>
    requires running { IsRunning fingerprint.now core store }
    requires names { IsScriptOf core.application commands.now }
    requires steps { core.steps + sum_by turns_of commands.now ≤ 10 ^ 18 }
    requires kept { IsKept (HasFile store) (sure_state device.old) (sure_leaves device.old) }
    requires silent { (sure_state device.old).sent ≡ [] }
    ensures exact { IfOk result (λ lines. lines ≡ report_by n (durable_of core) (acts_of (history core.application core.state commands.now))) }
{
    let mut done = 0;
    let commits = match run_script(alloc, device, store, core, fingerprint, commands, &mut done) {
        Ok(commits) => commits,
        Err(error) => return Err(want_of_memory(error)),
    };
    let tables = stored_tables(alloc, device)?;
    made_report_lines(alloc, n, commits, device.sent(), &tables)
}

/// Runs the commands over a device of its own, from an empty file with this fingerprint, and answers the lines on it: the
/// number n of inputs, of commits, and of lines that were sent; the clock and the content of the GSSB TOTAL in the last
/// durable tables; and the digest of what was sent and of the lines of these tables. The device never fails, so the call
/// ends early for want of memory alone. A line is counted by the LF that ends it.
pub fn made_report(
    alloc: Global,
    n: u32,
    generation: Generation,
    units: Units,
    fingerprint: &[u8; 32],
    commands: &[Command],
) -> Result<Bytes, OutOfMemory>
    requires fit { IsFit generation units }
    requires names { IsScriptOf (applied generation units) commands.now }
    requires turns { sum_by turns_of commands.now ≤ 10 ^ 18 }
    ensures exact { IfOk result (λ lines. lines ≡ report_of n (applied generation units) commands.now) }
{
    let (mut device, store, tables) = opened(alloc, &generation, fingerprint)?;
    let core = Core::start(alloc, generation, units, tables)?;
    ran(alloc, &mut device, store, core, fingerprint, n, commands)
}
