//! `check`: all that is found in the texts.
ghost use Rattle.std.specs.Prelude.{IfOk};
ghost use Rattle.kd_device.specs.Room.{SameRoom};
ghost use Rattle.lab_cli.specs.{Answers.{CheckCame}, Checking.{IsChecked, IsStatusOf}};

use crate::reading::texts_of;
use crate::stop::Stop;
use kd_base::OutOfMemory;
use kd_device::{DeviceError, Room};
use lab_check::{Checked, Verdict, findings};
use lab_turns::LabError;
use lab_turns::lab_printing::Console;
use lab_warnings::{Warned, warnings};
use refusals::{Status, text};
use std::alloc::Global;

// The script, where it can be read.
fn script_of<R: Room>(
    alloc: Global,
    room: &mut R,
    base: &[u8],
) -> Result<Option<Vec<u8>>, OutOfMemory>
    ensures { SameRoom (R.room room.old) (R.room room.new) }
{
    match text(alloc, room, base, b".script") {
        Ok(script) => Ok(Some(script)),
        Err(DeviceError::Failed) => Ok(None),
        Err(DeviceError::Memory) => Err(OutOfMemory),
    }
}

// A refusal of the definition or the units goes before one of the script.
fn status_of(checked: &Checked) -> Status
    ensures { IsStatusOf checked.now.verdict result.code }
{
    match &checked.verdict {
        Verdict::Refused(_) => Status::APPLICATION,
        Verdict::Accepted(_) => {
            if checked.refusals.is_empty() {
                Status::DONE
            } else {
                Status::SCRIPT
            }
        }
    }
}

// The line with its end.
fn ended(mut line: Vec<u8>) -> Result<Vec<u8>, OutOfMemory> {
    line.push(b'\n')?;
    Ok(line)
}

// Prints what was found, a line each.
fn tell<C: Console>(
    alloc: Global,
    console: &mut C,
    checked: &Checked,
    warned: &[Warned],
) -> Result<(), LabError> {
    for refusal in &checked.refusals {
        let mut line = refusal.printed(alloc)?;
        line.extend_from_slice(checked.details.printed(alloc, refusal)?.as_slice())?;
        console.put(&ended(line)?)?;
    }
    for warning in warned {
        console.put(&ended(warning.printed(alloc)?)?)?;
    }
    if checked.refusals.is_empty() && warned.is_empty() {
        console.put(b"OK\n")?;
    }
    Ok(())
}

// Prints what is found in these texts.
fn check_texts<C: Console>(
    alloc: Global,
    console: &mut C,
    definition: &[u8],
    units: &[u8],
    script: Option<&[u8]>,
) -> Result<Status, LabError>
    ensures { IfOk result (λ status. IsChecked definition.now units.now status.code) }
{
    let checked = findings(alloc, definition, units, script)?;
    let warned = warnings(alloc, definition, units, &checked.verdict)?;
    tell(alloc, console, &checked, warned.as_slice())?;
    Ok(status_of(&checked))
}

/// Prints all that is found in the texts of this BASE, a line each, or `OK`. The script need not be there.
pub(crate) fn check<R: Room, C: Console>(
    alloc: Global,
    room: &mut R,
    console: &mut C,
    base: &[u8],
) -> Result<Status, Stop>
    ensures came { CheckCame base.now (R.room room.old) (R.room room.new) console.old console.new result }
    ensures same { SameRoom (R.room room.old) (R.room room.new) }
{
    let texts = texts_of(alloc, room, base, false)?;
    let script = script_of(alloc, room, base)?;
    Ok(check_texts(
        alloc,
        console,
        &texts.definition,
        &texts.units,
        script.as_deref(),
    )?)
}
