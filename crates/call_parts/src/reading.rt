//! The texts of a call, read from the room, and what they say over one KDCFILE, or over two copies.
ghost use Rattle.std.specs.Prelude.{◌≡◌, List, ℕ, IsTrue, IfOk, OnOk, IfErr, IsErrOf, Option, Err, ◌≢◌, [], false};
ghost use Rattle.audit_trail.specs.Facts.{IsTrail};
ghost use Rattle.kd_device.specs.{Device.{Rose}, Room.{SameRoom}};
ghost use Rattle.call_parts.specs.Asking.{AreThere, HasTrailFault, HasWork, IsErrandOf, IsOfWord, MakesFit, SaysFault, SaysOver, SaysTrail, ScriptIs, TellsTexts, ThirdRefuses, ToldFault, ToldOver, WereRead, asked_by, one_errand};
ghost use Rattle.call_parts.specs.Words.{HasNoThird, IsForm, IsOfBase, audits};
ghost use Rattle.refusals.specs.{Statuses.{status_of}, Texts.{NoReadFailed, shown_of}, declared.error.Refusal.{Refusal}};
ghost use Rattle.script_read.specs.Commands.{script_in};
ghost use Rattle.call_parts.specs.MadeTexts.{definition_text as made_definition, units_text as made_units, script_text as made_script};
ghost use Rattle.call_parts.specs.MadeApplication.{AreMade};
ghost use Rattle.call_parts.specs.declared.words.Word.TheVariants.{Make};
ghost use Rattle.application_types.specs.Statements.{IsWithin};

use crate::errand::{Asked, Looking, OneFile, Storing, Task, TwoFiles, Work};
use crate::made_input::{made, made_texts_are_taken};
use crate::words::Word;
use abstract_monitor::Command;
use application_read::{generations_are_sound, read_application};
use audit_trail::{Trail, TrailFault, faults_are_first, read_trail, says_what_its_lines_say};
use device_acts::warm_start::fingerprint_of;
use kd_base::{OutOfMemory, Sequence};
use kd_device::{DeviceError, Room};
use refusals::{TextError, text};
use script_read::{commands_are_said, read_script};
use std::alloc::Global;
use table_fit::suits;

/// The texts of a word, as far as they were read.
#[derive(Drop)]
struct Texts {
    definition: Vec<u8>,
    units: Vec<u8>,
    /// The script, or the trail.
    third: Vec<u8>,
}

/// The third text: the script, which `run` and `trail` read, or the trail, which `audit` reads.
fn third_text<R: Room>(
    alloc: Global,
    room: &mut R,
    word: Word,
    base: &[u8],
) -> Result<Vec<u8>, DeviceError>
    requires { IsOfBase word }
    ensures value { IfOk result (λ text. IsTrue (R.room room.old).told → (whole : List ℕ) × ScriptIs word base.now (R.room room.old) whole × (text.items ≡ shown_of whole)) }
    ensures none { IfOk result (λ text. HasNoThird word → text.items ≡ []) }
    ensures room { IsErrOf result DeviceError.Failed → Rose (R.room room.old).faults (R.room room.new).faults }
    ensures sure { IsTrue (R.room room.old).sure → (whole : List ℕ) → ScriptIs word base.now (R.room room.old) whole → IsErrOf result DeviceError.Failed → ⊥ }
    ensures fine { OnOk result (NoReadFailed (R.room room.old) (R.room room.new)) }
    ensures memory { IsErrOf result DeviceError.Memory → NoReadFailed (R.room room.old) (R.room room.new) }
    ensures same { SameRoom (R.room room.old) (R.room room.new) }
{
    match word {
        Word::Run | Word::Trail => text(alloc, room, base, b".script"),
        Word::Audit => text(alloc, room, base, b".trail"),
        Word::Gen | Word::Show | Word::Update | Word::Make(_) => Ok(Vec::new(alloc)),
    }
}

/// The texts that a word reads from the room.
fn room_texts<R: Room>(
    alloc: Global,
    room: &mut R,
    word: Word,
    base: &[u8],
) -> Result<Texts, DeviceError>
    requires { IsOfBase word }
    ensures read { IfOk result (λ t. IsTrue (R.room room.old).told → WereRead word base.now (R.room room.old) t.definition.items t.units.items t.third.items) }
    ensures none { IfOk result (λ t. HasNoThird word → t.third.items ≡ []) }
    ensures room { IsErrOf result DeviceError.Failed → Rose (R.room room.old).faults (R.room room.new).faults }
    ensures sure { IsTrue (R.room room.old).sure → (definition units text : List ℕ) → AreThere word base.now (R.room room.old) definition units text → IsErrOf result DeviceError.Failed → ⊥ }
    ensures fine { OnOk result (NoReadFailed (R.room room.old) (R.room room.new)) }
    ensures memory { IsErrOf result DeviceError.Memory → NoReadFailed (R.room room.old) (R.room room.new) }
    ensures same { SameRoom (R.room room.old) (R.room room.new) }
{
    let definition = text(alloc, room, base, b".def")?;
    let units = text(alloc, room, base, b".units")?;
    let third = third_text(alloc, room, word, base)?;
    Ok(Texts {
        definition,
        units,
        third,
    })
}

/// The made texts with so many inputs.
fn made_texts(alloc: Global, inputs: u32) -> Result<Texts, OutOfMemory>
    requires { IsWithin 1 20000 inputs }
    ensures definition { IfOk result (λ t. t.definition.items ≡ made_definition) }
    ensures units { IfOk result (λ t. t.units.items ≡ made_units) }
    ensures script { IfOk result (λ t. t.third.items ≡ made_script inputs) }
{
    let made = made(alloc, inputs)?;
    Ok(Texts {
        definition: made.definition.into_vec(),
        units: made.units.into_vec(),
        third: made.script.into_vec(),
    })
}

/// The texts of a word: those of this BASE, or the made ones.
fn texts_of<R: Room>(
    alloc: Global,
    room: &mut R,
    word: Word,
    base: &[u8],
) -> Result<Texts, DeviceError>
    requires { IsForm word }
    ensures read { IfOk result (λ t. TellsTexts word (R.room room.old) → WereRead word base.now (R.room room.old) t.definition.items t.units.items t.third.items) }
    ensures none { IfOk result (λ t. HasNoThird word → t.third.items ≡ []) }
    ensures room { IsErrOf result DeviceError.Failed → Rose (R.room room.old).faults (R.room room.new).faults }
    ensures sure { IsTrue (R.room room.old).sure → (definition units text : List ℕ) → AreThere word base.now (R.room room.old) definition units text → IsErrOf result DeviceError.Failed → ⊥ }
    ensures fine { OnOk result (NoReadFailed (R.room room.old) (R.room room.new)) }
    ensures memory { IsErrOf result DeviceError.Memory → NoReadFailed (R.room room.old) (R.room room.new) }
    ensures same { SameRoom (R.room room.old) (R.room room.new) }

    // Those of `make` are there, whatever the room.
    ensures made { (n : ℕ) → word ≡ Make n → IfOk result (λ t. AreMade n t.definition.items t.units.items t.third.items) }
    ensures made_there { (n : ℕ) → word ≡ Make n → IsErrOf result DeviceError.Failed → ⊥ }
{
    match word {
        Word::Gen | Word::Run | Word::Show | Word::Update | Word::Trail | Word::Audit => {
            room_texts(alloc, room, word, base)
        }
        Word::Make(inputs) => match made_texts(alloc, inputs) {
            Ok(texts) => Ok(texts),
            Err(OutOfMemory) => Err(DeviceError::Memory),
        },
    }
}

/// The commands of a script; or its fault.
fn commands_for(alloc: Global, work: &Work, text: &[u8]) -> Result<Sequence<Command>, TextError>
    ensures asks { IfOk result (λ commands. script_in work.now.application.generation text.now ≡ Ok commands) }
    ensures refused { (why : Refusal) → IsErrOf result (TextError.Refused why) → ThirdRefuses false work.now.application work.now.fingerprint text.now why }
    ensures never { IsErrOf result TextError.Room → ⊥ }
{
    let commands = read_script(alloc, &work.application.generation, text)?;
    Ok(Sequence::from_vec(commands))
}

/// The trail that a text says, which is of the texts with this fingerprint and begins with tables that suit what they
/// generate; or its first fault.
fn trail_for(alloc: Global, work: &Work, text: &[u8]) -> Result<Trail, TrailFault>
    ensures found { IfOk result (SaysTrail work.now.application work.now.fingerprint text.now) }
    ensures proper { IfOk result IsTrail }
    ensures refused { IfErr result (λ fault. fault ≢ TrailFault.Memory → HasTrailFault work.now.application work.now.fingerprint text.now fault) }
{
    faults_are_first();
    let trail = read_trail(alloc, text)?;
    let generation = &work.application.generation;
    let limits = generation.max();
    if trail.fingerprint != work.fingerprint {
        Err(TrailFault::OtherGeneration(1))
    } else if !suits(generation, &trail.start, limits.blksize, limits.pgpool) {
        Err(TrailFault::NotSuited(2))
    } else {
        Ok(trail)
    }
}

/// What a word asks for over the application that the definition and the units make, or the fault of the third text.
fn errand_of(alloc: Global, word: Word, work: Work, third: &[u8]) -> Result<OneFile, TextError>
    requires none { HasNoThird word → third.now ≡ [] }
    ensures asks { IfOk result (λ o. IsErrandOf word work third.now (one_errand o)) }
    ensures word { IfOk result (λ o. IsOfWord word (Asked.One o)) }
    ensures refused { (why : Refusal) → IsErrOf result (TextError.Refused why) → ThirdRefuses (audits word) work.application work.fingerprint third.now why }
    ensures never { IsErrOf result TextError.Room → ⊥ }

    // A word that reads no third text is not refused for one.
    ensures third { HasNoThird word → (why : Refusal) → IsErrOf result (TextError.Refused why) → ⊥ }
{
    match word {
        Word::Gen => Ok(OneFile::Over(work, Task::Store(Storing::Report))),
        Word::Run => {
            let commands = commands_for(alloc, &work, third)?;
            Ok(OneFile::Over(work, Task::Store(Storing::Script(commands))))
        }
        Word::Show => Ok(OneFile::Over(work, Task::Look(Looking::Listing))),
        Word::Update => Ok(OneFile::Over(work, Task::Update)),
        Word::Trail => {
            let commands = commands_for(alloc, &work, third)?;
            Ok(OneFile::Over(work, Task::Look(Looking::Trail(commands))))
        }
        Word::Audit => {
            let trail = trail_for(alloc, &work, third)?;
            Ok(OneFile::Over(work, Task::Audit(trail)))
        }
        Word::Make(inputs) => {
            let commands = commands_for(alloc, &work, third)?;
            Ok(OneFile::Make(inputs, work, commands))
        }
    }
}

/// The same, where the definition may ask for two copies, by its statement at a line. `make` has no file.
fn with_copies(double: Option<u32>, asks: Result<OneFile, TextError>) -> Result<Asked, TextError>
    ensures { result ≡ asked_by double asks }
{
    match asks {
        Ok(OneFile::Over(work, task)) => match double {
            None => Ok(Asked::One(OneFile::Over(work, task))),
            Some(line) => Ok(Asked::Two(line, TwoFiles::Over(work, task))),
        },
        Ok(OneFile::Make(inputs, work, commands)) => {
            Ok(Asked::One(OneFile::Make(inputs, work, commands)))
        }
        Err(TextError::Refused(why)) => match double {
            None => Err(TextError::Refused(why)),
            Some(line) => Ok(Asked::Two(line, TwoFiles::Refused(why))),
        },
        Err(TextError::Room) => Err(TextError::Room),
        Err(TextError::Memory) => Err(TextError::Memory),
    }
}

/// What the texts of a word say, or the first fault.
fn asked_of(
    alloc: Global,
    word: Word,
    definition: &[u8],
    units: &[u8],
    third: &[u8],
) -> Result<Asked, TextError>
    requires none { HasNoThird word → third.now ≡ [] }
    requires made { (n : ℕ) → word ≡ Make n → IsWithin 1 20000 n × AreMade n definition.now units.now third.now }
    ensures word { IfOk result (IsOfWord word) }
    ensures says { IfOk result (SaysOver word definition.now units.now third.now) }
    ensures fit { IfOk result MakesFit }
    ensures refused { (why : Refusal) → IsErrOf result (TextError.Refused why) → SaysFault word definition.now units.now third.now why }
    ensures never { IsErrOf result TextError.Room → ⊥ }

    // The made texts are not refused.
    ensures made { (n : ℕ) → word ≡ Make n → (why : Refusal) → IsErrOf result (TextError.Refused why) → ⊥ }

    // A word that reads no third text is refused for the definition or the units alone.
    ensures third { HasNoThird word → IfOk result HasWork }
    ensures third_refused { HasNoThird word → (why : Refusal) → IsErrOf result (TextError.Refused why) → status_of why ≡ 2 }
{
    made_texts_are_taken();
    generations_are_sound();
    commands_are_said();
    says_what_its_lines_say();
    let application = read_application(alloc, definition, units)?;
    let double = application.generation.double();
    let fingerprint = fingerprint_of(definition, units);
    let work = Work {
        application,
        fingerprint,
    };
    with_copies(double, errand_of(alloc, word, work, third))
}

/// What the texts of a word say. All of them are read before the first is looked into.
pub fn read_texts<R: Room>(
    alloc: Global,
    room: &mut R,
    word: Word,
    base: &[u8],
) -> Result<Asked, TextError>
    requires { IsForm word }
    ensures word { IfOk result (IsOfWord word) }
    ensures says { IfOk result (λ o. TellsTexts word (R.room room.old) → ToldOver word base.now (R.room room.old) o) }
    ensures fit { IfOk result MakesFit }
    ensures refused { (why : Refusal) → IsErrOf result (TextError.Refused why) → TellsTexts word (R.room room.old) → ToldFault word base.now (R.room room.old) why }
    ensures room { IsErrOf result TextError.Room → Rose (R.room room.old).faults (R.room room.new).faults }
    ensures sure { IsTrue (R.room room.old).sure → (definition units text : List ℕ) → AreThere word base.now (R.room room.old) definition units text → IsErrOf result TextError.Room → ⊥ }
    ensures fine { OnOk result (NoReadFailed (R.room room.old) (R.room room.new)) }
    ensures memory { IsErrOf result TextError.Memory → NoReadFailed (R.room room.old) (R.room room.new) }
    ensures refused_fine { (why : Refusal) → IsErrOf result (TextError.Refused why) → NoReadFailed (R.room room.old) (R.room room.new) }
    ensures same { SameRoom (R.room room.old) (R.room room.new) }

    // Those of `make` are read and not refused, whatever the room.
    ensures made { (n : ℕ) → word ≡ Make n → (why : Refusal) → IsErrOf result (TextError.Refused why) → ⊥ }
    ensures made_there { (n : ℕ) → word ≡ Make n → IsErrOf result TextError.Room → ⊥ }

    // A word that reads no third text is refused for the definition or the units alone.
    ensures third { HasNoThird word → IfOk result HasWork }
    ensures third_refused { HasNoThird word → (why : Refusal) → IsErrOf result (TextError.Refused why) → status_of why ≡ 2 }
{
    let texts = texts_of(alloc, room, word, base)?;
    asked_of(alloc, word, &texts.definition, &texts.units, &texts.third)
}
