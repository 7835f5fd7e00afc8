//! The messages of jobs for LTERMs: KDCOUT and KDCLAST at a terminal, PRINT at a printer; and KDCDISP.
ghost use Rattle.std.specs.{Prelude.{◌≡◌, ◌∷◌, [], ◌++◌, Some, IfOk, OnOk}, Option.{option_eq, option_map}, FinMap.{find}};
ghost use Rattle.kdcs_types.specs.{declared.act.Act.TheVariants.{Emit}, Same.{job_value_eq}, Tables.{shown_of}};
ghost use Rattle.abstract_monitor.specs.{Bytes.{bytes_cmp}, Commands.{display, due_for, last_by, show_again, show_next}, Lines.{no_message_line}};
ghost use Rattle.service_ends.specs.{Whole.{app_of, IsWhole}, Standing.{IsIndexed, SameApplication, state_of}};
ghost use Rattle.laws_of_states.specs.CommitLaws.{shown_changes, shown_set};
ghost use Rattle.monitor_core.specs.{Commanding.{shown_line, Comes}, Showing.{shown_job, job_with}};

use crate::message::{line_alone, line_behind};
use kd_base::{Bytes, Name, OutOfMemory};
use kdcs_types::{Acts, Change, Changes, JobValue, Key, Row, RowChanges, Tables, Target};
use monitor_parts::output_lines::{asy_line, no_message_line, out_line, prt_line};
use service_ends::core_state::MonitorParts;
use std::alloc::Global;
use sync_points::is_real;

/// Where the message of a job is shown.
#[derive(Clone, Copy, PartialEq, Eq)]
pub(crate) enum Shown {
    Terminal,
    Printer,
}

/// A job of the tables whose message is shown.
#[derive(Clone, Copy)]
struct DueJob<'a> {
    number: u64,
    value: &'a JobValue,
}

fn shown_line(
    alloc: Global,
    shown: Shown,
    pterm: &Name,
    message: &[u8],
) -> Result<Bytes, OutOfMemory>
    ensures { IfOk result (λ line. line ≡ shown_line shown pterm.now message.now) }
{
    match shown {
        Shown::Terminal => asy_line(alloc, *pterm, message),
        Shown::Printer => prt_line(alloc, *pterm, message),
    }
}

// The message is set, unless the LTERM shows it already.
#[tactic(auto, using(crate::proofs::Shows::set_none, crate::proofs::Shows::set_one))]
fn set_shown(
    items: &mut RowChanges,
    tables: &Tables,
    lterm: &Name,
    value: &JobValue,
) -> Result<(), OutOfMemory>
    ensures { OnOk result (items.new ≡ items.old ++ shown_set (option_eq job_value_eq (Some value.now) (shown_of tables.now lterm.now)) lterm.now value.now) }
{
    let shown = Change::Set(Row::Shown(*lterm, value.clone()?));
    if !is_real(tables, &shown) {
        return Ok(());
    }
    items.push(shown)
}

// The job goes, and its value is the shown message of this LTERM, if it is not so already.
fn shown_changes(
    alloc: Global,
    tables: &Tables,
    lterm: &Name,
    due: &DueJob<'_>,
) -> Result<Changes, OutOfMemory>
    ensures { IfOk result (λ changes. changes ≡ shown_changes tables.now lterm.now (shown_job due.now)) }
{
    let mut items = RowChanges::new(alloc);
    items.push(Change::Remove(Key::Job(due.number)))?;
    set_shown(&mut items, tables, lterm, due.value)?;
    Ok(Changes {
        clock: tables.clock(),
        next_job: tables.next_job(),
        items,
    })
}

fn job_at(tables: &Tables, number: u64) -> Option<DueJob<'_>>
    ensures { option_map shown_job result ≡ job_with tables.now number }
{
    let value = tables.job(number)?;
    Some(DueJob { number, value })
}

// The job that is due first for this LTERM.
fn due_for<'a>(parts: &'a MonitorParts, lterm: &Name) -> Option<DueJob<'a>>
    requires { IsIndexed parts.now }
    ensures { option_map shown_job result ≡ due_for (state_of parts.now) lterm.now }
{
    let clock = parts.tables.clock();
    let first = parts.jobs.first_for(&Target::Lterm(*lterm), clock);
    match &first {
        Some(queued) => job_at(&parts.tables, queued.number),
        None => None,
    }
}

// The line of a job that is due, and what showing it changes.
fn line_and_changes(
    alloc: Global,
    shown: Shown,
    pterm: &Name,
    lterm: &Name,
    tables: &Tables,
    due: &DueJob<'_>,
) -> Result<(Bytes, Changes), OutOfMemory>
    ensures line { IfOk result (λ made. made.0 ≡ shown_line shown pterm.now (shown_job due.now).value.message) }
    ensures changes { IfOk result (λ made. made.1 ≡ shown_changes tables.now lterm.now (shown_job due.now)) }
{
    let line = shown_line(alloc, shown, pterm, due.value.message.as_slice())?;
    let changes = shown_changes(alloc, tables, lterm, due)?;
    Ok((line, changes))
}

fn no_message(alloc: Global, pterm: &Name) -> Result<Acts, OutOfMemory>
    ensures { IfOk result (λ acts. acts ≡ Emit (no_message_line pterm.now) ∷ []) }
{
    line_alone(alloc, no_message_line(alloc, *pterm)?)
}

/// The next message for this LTERM, if one is due: its job leaves the tables in one commit, and it is shown.
pub(crate) fn show_next(
    parts: &mut MonitorParts,
    alloc: Global,
    shown: Shown,
    pterm: &Name,
    lterm: &Name,
) -> Result<Acts, OutOfMemory>
    requires whole { IsWhole parts.old }
    ensures exact { IfOk result (λ acts. Comes (state_of parts.new) acts (show_next (app_of parts.old) (state_of parts.old) lterm.now (no_message_line pterm.now) (shown_line shown pterm.now))) }
    ensures indexed { OnOk result (IsIndexed parts.new) }
    ensures same { OnOk result (SameApplication parts.old parts.new) }
{
    let _clock = parts.tables.clock(); // for the proof
    let Some(due) = due_for(parts, lterm) else {
        return no_message(alloc, pterm);
    };
    let (line, changes) = line_and_changes(alloc, shown, pterm, lterm, &parts.tables, &due)?;
    parts.change(&changes)?;
    line_behind(alloc, changes, line)
}

/// The message that this LTERM shows, once more.
pub(crate) fn show_again(
    parts: &MonitorParts,
    alloc: Global,
    shown: Shown,
    pterm: &Name,
    lterm: &Name,
) -> Result<Acts, OutOfMemory>
    ensures exact { IfOk result (λ acts. Comes (state_of parts.now) acts (show_again (state_of parts.now) lterm.now (no_message_line pterm.now) (shown_line shown pterm.now))) }
{
    let line = match parts.tables.shown_at(*lterm) {
        Some(value) => shown_line(alloc, shown, pterm, value.message.as_slice())?,
        None => no_message_line(alloc, *pterm)?,
    };
    line_alone(alloc, line)
}

/// KDCDISP: the last dialogue message of this session, once more.
pub(crate) fn display(
    parts: &MonitorParts,
    alloc: Global,
    pterm: &Name,
) -> Result<Acts, OutOfMemory>
    ensures exact { IfOk result (λ acts. Comes (state_of parts.now) acts (display (state_of parts.now) pterm.now (last_by (find bytes_cmp pterm.now (state_of parts.now).signed)))) }
{
    let line = match parts.sessions.last(*pterm) {
        Some(message) => out_line(alloc, *pterm, message.as_slice())?,
        None => no_message_line(alloc, *pterm)?,
    };
    line_alone(alloc, line)
}
