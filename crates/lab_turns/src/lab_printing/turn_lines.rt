//! The lines that are printed of commands and their steps.
ghost use Rattle.std.specs.Prelude.{◌≡◌, ◌++◌, codes, flat_map, IfOk, OnOk};
ghost use Rattle.abstract_monitor.specs.Lines.{line, owner_text};
ghost use Rattle.lab_turns.specs.Phrases.{area_text};
ghost use Rattle.lab_turns.specs.TurnLines.{act_text, acts_text, answer_text, area_line, asked_text, code_by, command_line, commit_line, end_line, end_text, ending_line, free_line, holder_text, over_text, place_text, statement_text, taken_text, task_text, turn_text, turned_text, turns_text, unit_text, wait_line, work_line};

use crate::lab_printing::phrases::{
    code_text, ending_text, put_area, put_changes, put_command, put_number, put_service,
};
use crate::lab_printing::source::Source;
use crate::{At, RunEnd, TurnView};
use abstract_monitor::Command;
use kd_base::{Bytes, OutOfMemory, ProgName};
use kdcs_types::{Act, Area, Changes, Code, Ending, ServiceId};
use std::alloc::Global;

// `>` and the command.
fn put_command_line(alloc: Global, out: &mut Bytes, command: &Command) -> Result<(), OutOfMemory>
    ensures { OnOk result (out.new ≡ out.old ++ command_line command.now) }
{
    out.append(b"> ")?;
    put_command(alloc, out, command)?;
    out.push(b'\n')
}

// Two blanks and the task.
fn put_task(alloc: Global, out: &mut Bytes, task: u16) -> Result<(), OutOfMemory>
    ensures { OnOk result (out.new ≡ out.old ++ task_text task) }
{
    out.append(b"  ")?;
    put_number(alloc, out, u64::from(task))?;
    out.append(b" ")
}

fn put_taken(alloc: Global, out: &mut Bytes, taken: &Option<ServiceId>) -> Result<(), OutOfMemory>
    ensures { OnOk result (out.new ≡ out.old ++ taken_text taken.now) }
{
    match taken {
        Some(id) => {
            out.append(b"takes ")?;
            put_service(alloc, out, id)
        }
        None => out.append(b"free"),
    }
}

// What a free task did.
fn put_free_line(alloc: Global, out: &mut Bytes, turn: &TurnView) -> Result<(), OutOfMemory>
    ensures { OnOk result (out.new ≡ out.old ++ free_line turn.now) }
{
    put_task(alloc, out, turn.task)?;
    put_taken(alloc, out, &turn.after)?;
    out.push(b'\n')
}

fn put_unit(out: &mut Bytes, unit: Option<ProgName>) -> Result<(), OutOfMemory>
    ensures { OnOk result (out.new ≡ out.old ++ unit_text unit) }
{
    match unit {
        Some(name) => {
            out.append(b"/")?;
            out.append(name.as_slice())
        }
        None => Ok(()),
    }
}

fn put_code(
    out: &mut Bytes,
    answered: bool,
    ending: Option<Ending>,
    code: Option<Code>,
) -> Result<(), OutOfMemory>
    ensures { OnOk result (out.new ≡ out.old ++ code_by answered ending code) }
{
    match (answered, ending, code) {
        (true, None, Some(code)) => {
            out.append(b" ")?;
            out.append(code_text(code))
        }
        (true, None, None) | (true, Some(_), _) | (false, _, _) => Ok(()),
    }
}

// The code of a call, where it was answered and its transaction is open.
fn put_answer(out: &mut Bytes, turn: &TurnView, at: &At) -> Result<(), OutOfMemory>
    ensures { OnOk result (out.new ≡ out.old ++ answer_text turn.now at.now) }
{
    put_code(out, turn.moved && at.calls, turn.ending, turn.code)
}

fn put_statement(
    alloc: Global,
    out: &mut Bytes,
    source: &Source,
    turn: &TurnView,
    at: &At,
) -> Result<(), OutOfMemory>
    ensures { OnOk result (out.new ≡ out.old ++ statement_text source.now (answer_text turn.now at.now) at.now.line) }
{
    match at.line {
        Some(number) => {
            out.append(b" line ")?;
            put_number(alloc, out, u64::from(number))?;
            put_answer(out, turn, at)?;
            out.append(b": ")?;
            out.append(source.line(number))
        }
        // Past the last statement.
        None => out.append(b" at its end"),
    }
}

// TAC, unit and statement.
fn put_place(
    alloc: Global,
    out: &mut Bytes,
    source: &Source,
    turn: &TurnView,
) -> Result<(), OutOfMemory>
    ensures { OnOk result (out.new ≡ out.old ++ place_text source.now turn.now turn.now.at) }
{
    match &turn.at {
        Some(at) => {
            out.append(b" ")?;
            out.append(at.tac.as_slice())?;
            put_unit(out, at.unit)?;
            put_statement(alloc, out, source, turn, at)
        }
        None => Ok(()),
    }
}

// The statement that a service did, or whose request waits.
fn put_work_line(
    alloc: Global,
    out: &mut Bytes,
    source: &Source,
    turn: &TurnView,
    id: &ServiceId,
) -> Result<(), OutOfMemory>
    ensures { OnOk result (out.new ≡ out.old ++ work_line source.now turn.now id.now) }
{
    put_task(alloc, out, turn.task)?;
    put_service(alloc, out, id)?;
    put_place(alloc, out, source, turn)?;
    out.push(b'\n')
}

fn put_area_line(
    alloc: Global,
    out: &mut Bytes,
    word: &[u8],
    area: &Area,
) -> Result<(), OutOfMemory>
    ensures { OnOk result (out.new ≡ out.old ++ area_line word.now area.now) }
{
    out.append(word)?;
    put_area(alloc, out, area)?;
    out.push(b'\n')
}

// A line for each area.
fn put_area_lines(
    alloc: Global,
    out: &mut Bytes,
    word: &[u8],
    areas: &[Area],
) -> Result<(), OutOfMemory>
    ensures { OnOk result (out.new ≡ out.old ++ flat_map (area_line word.now) areas.now) }
{
    for area in areas {
        put_area_line(alloc, out, word, area)?;
    }
    Ok(())
}

fn put_holder(alloc: Global, out: &mut Bytes, holder: &Option<ServiceId>) -> Result<(), OutOfMemory>
    ensures { OnOk result (out.new ≡ out.old ++ holder_text holder.now) }
{
    match holder {
        Some(id) => {
            out.append(b", which ")?;
            put_service(alloc, out, id)?;
            out.append(b" holds")
        }
        None => Ok(()),
    }
}

// For which area the service waits, and who holds it.
fn put_wait(
    alloc: Global,
    out: &mut Bytes,
    area: &Area,
    holder: &Option<ServiceId>,
) -> Result<(), OutOfMemory>
    ensures { OnOk result (out.new ≡ out.old ++ line (codes "    waits for " ++ area_text area.now ++ holder_text holder.now)) }
{
    out.append(b"    waits for ")?;
    put_area(alloc, out, area)?;
    put_holder(alloc, out, holder)?;
    out.push(b'\n')
}

fn put_wait_line(
    alloc: Global,
    out: &mut Bytes,
    waits: &Option<(Area, Option<ServiceId>)>,
) -> Result<(), OutOfMemory>
    ensures { OnOk result (out.new ≡ out.old ++ wait_line waits.now) }
{
    match waits {
        Some((area, holder)) => put_wait(alloc, out, area, holder),
        None => Ok(()),
    }
}

fn put_ending_line(out: &mut Bytes, ending: Option<Ending>) -> Result<(), OutOfMemory>
    ensures { OnOk result (out.new ≡ out.old ++ ending_line ending) }
{
    match ending {
        Some(ending) => {
            out.append(b"    ends ")?;
            out.append(ending_text(ending))?;
            out.push(b'\n')
        }
        None => Ok(()),
    }
}

// What a task that held a service did.
fn put_below(alloc: Global, out: &mut Bytes, turn: &TurnView) -> Result<(), OutOfMemory>
    ensures { OnOk result (out.new ≡ out.old ++ (flat_map (area_line (codes "    locks ")) turn.now.locked.items ++ wait_line turn.now.waits ++ ending_line turn.now.ending ++ flat_map (area_line (codes "    frees ")) turn.now.freed.items)) }
{
    put_area_lines(alloc, out, b"    locks ", &turn.locked)?;
    put_wait_line(alloc, out, &turn.waits)?;
    put_ending_line(out, turn.ending)?;
    put_area_lines(alloc, out, b"    frees ", &turn.freed)
}

// What a turn did.
fn put_turn(
    alloc: Global,
    out: &mut Bytes,
    source: &Source,
    turn: &TurnView,
) -> Result<(), OutOfMemory>
    ensures { OnOk result (out.new ≡ out.old ++ turn_text source.now turn.now) }
{
    match &turn.before {
        Some(id) => {
            put_work_line(alloc, out, source, turn, id)?;
            put_below(alloc, out, turn)
        }
        None => put_free_line(alloc, out, turn),
    }
}

// What a commit changes.
fn put_commit_line(alloc: Global, out: &mut Bytes, changes: &Changes) -> Result<(), OutOfMemory>
    ensures { OnOk result (out.new ≡ out.old ++ commit_line changes.now) }
{
    out.append(b"    commits ")?;
    put_changes(alloc, out, changes)?;
    out.push(b'\n')
}

// A line of the monitor; the commit, where it traces.
fn put_act(alloc: Global, out: &mut Bytes, traces: bool, act: &Act) -> Result<(), OutOfMemory>
    ensures { OnOk result (out.new ≡ out.old ++ act_text traces act.now) }
{
    match act {
        Act::Emit(text) => out.append(text.as_slice()),
        Act::Commit(changes) if traces => put_commit_line(alloc, out, changes),
        Act::Commit(_) => Ok(()),
    }
}

// What acts are printed as.
fn put_acts(alloc: Global, out: &mut Bytes, traces: bool, acts: &[Act]) -> Result<(), OutOfMemory>
    ensures { OnOk result (out.new ≡ out.old ++ acts_text traces acts.now) }
{
    for act in acts {
        put_act(alloc, out, traces, act)?;
    }
    Ok(())
}

fn end_text(end: RunEnd) -> &'static [u8]
    ensures { result.now ≡ end_text end }
{
    match end {
        RunEnd::Idle => b"  idle",
        RunEnd::Waiting(_) => b"  waiting",
        RunEnd::Spent => b"  spent",
    }
}

fn turns_text(turns: u64) -> &'static [u8]
    ensures { result.now ≡ turns_text turns }
{
    if turns == 1 { b" turn" } else { b" turns" }
}

// How a RUN ended, after so many turns.
fn put_end_line(alloc: Global, out: &mut Bytes, turns: u64, end: RunEnd) -> Result<(), OutOfMemory>
    ensures { OnOk result (out.new ≡ out.old ++ end_line turns end) }
{
    out.append(end_text(end))?;
    out.append(b" after ")?;
    put_number(alloc, out, turns)?;
    out.append(turns_text(turns))?;
    out.push(b'\n')
}

/// What is printed of a command: in a trace the command.
pub(crate) fn asked_text(
    alloc: Global,
    traces: bool,
    command: &Command,
) -> Result<Bytes, OutOfMemory>
    ensures { IfOk result (λ text. text ≡ asked_text traces command.now) }
{
    let mut text = Bytes::new(alloc);
    if traces {
        put_command_line(alloc, &mut text, command)?;
    }
    Ok(text)
}

// What is printed of a turn itself, in a trace alone.
fn put_turned(
    alloc: Global,
    out: &mut Bytes,
    traces: bool,
    source: &Source,
    turn: &TurnView,
) -> Result<(), OutOfMemory>
    ensures { OnOk result (out.new ≡ out.old ++ turned_text traces source.now turn.now) }
{
    if traces {
        put_turn(alloc, out, source, turn)
    } else {
        Ok(())
    }
}

/// What is printed of a turn and of its acts.
pub(crate) fn turn_and_acts_text(
    alloc: Global,
    traces: bool,
    source: &Source,
    turn: &TurnView,
    acts: &[Act],
) -> Result<Bytes, OutOfMemory>
    ensures { IfOk result (λ text. text ≡ turned_text traces source.now turn.now ++ acts_text traces acts.now) }
{
    let mut text = Bytes::new(alloc);
    put_turned(alloc, &mut text, traces, source, turn)?;
    put_acts(alloc, &mut text, traces, acts)?;
    Ok(text)
}

/// What is printed of the acts of a command.
pub(crate) fn acts_text(alloc: Global, traces: bool, acts: &[Act]) -> Result<Bytes, OutOfMemory>
    ensures { IfOk result (λ text. text ≡ acts_text traces acts.now) }
{
    let mut text = Bytes::new(alloc);
    put_acts(alloc, &mut text, traces, acts)?;
    Ok(text)
}

/// What is printed of the end of a RUN, in a trace alone.
pub(crate) fn over_text(
    alloc: Global,
    traces: bool,
    turns: u64,
    end: RunEnd,
) -> Result<Bytes, OutOfMemory>
    ensures { IfOk result (λ text. text ≡ over_text traces turns end) }
{
    let mut text = Bytes::new(alloc);
    if traces {
        put_end_line(alloc, &mut text, turns, end)?;
    }
    Ok(text)
}
