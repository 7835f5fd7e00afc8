//! What a call starts from: an application, the tables of its KDCFILE, and its script.
ghost use Rattle.std.specs.Prelude.{◌≡◌, ℕ, List, IfErr, IfOk, IsTrue, Ok, OnOk};
ghost use Rattle.kd_device.specs.Room.{SameRoom};
ghost use Rattle.application_types.specs.Fitted.{IsFit};
ghost use Rattle.application_read.specs.Texts.{TextsGenerate};
ghost use Rattle.abstract_monitor.specs.CommandsOf.{IsCommandOf};
ghost use Rattle.std.specs.Prelude.{All};
ghost use Rattle.script_read.specs.Commands.{script_in};
ghost use Rattle.refusals.specs.Texts.{NoReadFailed};
ghost use Rattle.lab_cli.specs.Places.{AreRead, CanStart, IsAskedBy, IsPlaceOf, IsScriptRead, MissesScript, MissesText};
ghost use Rattle.lab_cli.specs.Stops.{FailsSo, IsTextFault, ScriptRefuses, StopsAt, StopsFor, TextsRefuse, IsCauseOfTexts};

use crate::files::tables_of;
use crate::stop::Stop;
use abstract_monitor::Command;
use application_read::{Application, read_application};
use device_acts::warm_start::fingerprint_of;
use kd_device::{DeviceError, Room};
use kdcs_types::Tables;
use lab_turns::lab_printing::Source;
use refusals::{TextError, text};
use script_read::read_script;
use std::alloc::Global;

/// What a call starts from.
#[derive(Drop)]
pub struct Place {
    pub application: Application,
    /// The tables that the KDCFILE keeps.
    pub tables: Tables,
    /// The text of the units.
    pub units: Source,
    /// The script, and its commands; none where the call reads none.
    pub script: Vec<u8>,
    pub commands: Vec<Command>,
}

/// The texts of a call, as they were read.
#[derive(Drop)]
pub(crate) struct Texts {
    pub(crate) definition: Vec<u8>,
    pub(crate) units: Vec<u8>,
    pub(crate) script: Vec<u8>,
}

/// What the texts of a call make.
#[derive(Drop)]
struct Asked {
    application: Application,
    /// That of the definition and the units.
    fingerprint: [u8; 32],
    units: Source,
    script: Vec<u8>,
    commands: Vec<Command>,
}

// The script, where the call reads one.
fn script_of<R: Room>(
    alloc: Global,
    room: &mut R,
    base: &[u8],
    with_script: bool,
) -> Result<Vec<u8>, DeviceError>
    ensures read { IfOk result (λ text. IsTrue (R.room room.old).told → IsScriptRead with_script base.now (R.room room.old).texts text.items) }
    ensures fine { OnOk result (NoReadFailed (R.room room.old) (R.room room.new)) }
    ensures fails { IfErr result (FailsSo (MissesScript with_script base.now (R.room room.old).texts) (R.room room.old) (R.room room.new)) }
    ensures same { SameRoom (R.room room.old) (R.room room.new) }
{
    if with_script {
        text(alloc, room, base, b".script")
    } else {
        Ok(Vec::new(alloc))
    }
}

/// The texts of this BASE.
pub(crate) fn texts_of<R: Room>(
    alloc: Global,
    room: &mut R,
    base: &[u8],
    with_script: bool,
) -> Result<Texts, DeviceError>
    ensures read { IfOk result (λ t. IsTrue (R.room room.old).told → AreRead with_script base.now (R.room room.old).texts t.definition.items t.units.items t.script.items) }
    ensures fine { OnOk result (NoReadFailed (R.room room.old) (R.room room.new)) }
    ensures fails { IfErr result (FailsSo (MissesText with_script base.now (R.room room.old).texts) (R.room room.old) (R.room room.new)) }
    ensures same { SameRoom (R.room room.old) (R.room room.new) }
{
    let definition = text(alloc, room, base, b".def")?;
    let units = text(alloc, room, base, b".units")?;
    let script = script_of(alloc, room, base, with_script)?;
    Ok(Texts {
        definition,
        units,
        script,
    })
}

// What the definition and the units make.
fn application_of(alloc: Global, definition: &[u8], units: &[u8]) -> Result<Application, TextError>
    ensures generates { IfOk result (λ a. TextsGenerate definition.now units.now a) }
    ensures fit { IfOk result (λ a. IsFit a.generation a.units) }
    ensures refused { IfErr result (IsTextFault (λ why. (script : List ℕ) → TextsRefuse definition.now units.now script why)) }
{
    Ok(read_application(alloc, definition, units)?)
}

fn commands_of(
    alloc: Global,
    application: &Application,
    script: &[u8],
) -> Result<Vec<Command>, TextError>
    ensures says { IfOk result (λ commands. script_in application.now.generation script.now ≡ Ok commands.items) }
    ensures names { IfOk result (λ commands. All (IsCommandOf application.now.generation) commands.items) }
    ensures refused { IfErr result (IsTextFault (ScriptRefuses application.now.generation script.now)) }
{
    Ok(read_script(alloc, &application.generation, script)?)
}

// What the texts make, or their first fault.
fn asked_of(alloc: Global, texts: Texts) -> Result<Asked, Stop>
    ensures asks { IfOk result (λ a. IsAskedBy texts.definition.items texts.units.items texts.script.items a.application a.fingerprint a.units a.script.items a.commands.items) }
    ensures fit { IfOk result (λ a. IsFit a.application.generation a.application.units) }
    ensures names { IfOk result (λ a. All (IsCommandOf a.application.generation) a.commands.items) }
    ensures refused { IfErr result (StopsFor (IsCauseOfTexts texts.definition.items texts.units.items texts.script.items)) }
{
    let Texts {
        definition,
        units: units_text,
        script,
    } = texts;
    let application = application_of(alloc, &definition, &units_text)?;
    let commands = commands_of(alloc, &application, &script)?;
    let fingerprint = fingerprint_of(&definition, &units_text);
    let units = Source::of(alloc, &units_text)?;
    Ok(Asked {
        application,
        fingerprint,
        units,
        script,
        commands,
    })
}

/// What a call on this BASE starts from. Its texts are read before the first is looked into, and its files after them.
pub fn place_of<R: Room>(
    alloc: Global,
    room: &mut R,
    base: &[u8],
    with_script: bool,
) -> Result<Place, Stop>
    ensures starts { IfOk result CanStart }
    ensures place { IfOk result (λ p. IsTrue (R.room room.old).told → IsPlaceOf with_script base.now (R.room room.old).texts p) }
    ensures fine { OnOk result (NoReadFailed (R.room room.old) (R.room room.new)) }
    ensures stops { IfErr result (StopsAt with_script base.now (R.room room.old) (R.room room.new)) }
    ensures same { SameRoom (R.room room.old) (R.room room.new) }
{
    let texts = texts_of(alloc, room, base, with_script)?;
    let asked = asked_of(alloc, texts)?;
    let generation = &asked.application.generation;
    let tables = tables_of(alloc, room, base, generation, &asked.fingerprint)?;
    let Asked {
        application,
        fingerprint: _,
        units,
        script,
        commands,
    } = asked;
    Ok(Place {
        application,
        tables,
        units,
        script,
        commands,
    })
}
