//! The top call.
ghost use Rattle.std.specs.{Prelude.{◌≡◌, ◌∷◌, [], IfOk, cond, map}, String.{string_bytes}};
ghost use Rattle.abstract_monitor.specs.Commands.{started};
ghost use Rattle.application_types.specs.Fitted.{IsFit};
ghost use Rattle.kd_device.specs.Room.{SameRoom};
ghost use Rattle.laws_of_runs.specs.Applied.{applied};
ghost use Rattle.laws_of_states.specs.Suits.{Suits};
ghost use Rattle.refusals.specs.{Lines.{file_line, refusal_line}, Statuses.{IsOneOf, status_of as status_for, status_of_file}};
ghost use Rattle.lab_turns.specs.Consoles.{printed};
ghost use Rattle.lab_cli.specs.{Answers.{AnswersLab, Came, reads_script}, Doing.{Does}, Places.{CanStart}};
ghost use Rattle.lab_cli.specs.Answers.{WordCame};
ghost use Rattle.lab_cli.specs.Stops.{Says, SaysAll, SaysWhy};

use crate::checking::check;
use crate::exploring::explore_orders;
use crate::reading::{Place, place_of};
use crate::stop::Stop;
use crate::words::{Word, request_of};
use abstract_monitor::Command;
use application_read::Application;
use kd_base::{Bytes, OutOfMemory};
use kd_device::{Room, SureDevice};
use kdcs_types::Tables;
use lab_scripts::{talk, test, trace};
use lab_turns::lab_printing::{Console, Printer};
use lab_turns::{Bench, LabError};
use refusals::{FileRefusal, Refusal, Status, refuse_file, refuse_texts};
use std::alloc::Global;

/// What is printed where the words are none of the forms.
const USAGE: &[u8] =
    b"USAGE: lab check BASE, trace BASE, talk BASE, explore BASE N [NUMBER], test BASE\n";

/// An expected line was not sent, or a line that is not expected was.
const DIFFERS: Status = Status { code: 1 };

// ---- a refusal

// Prints a line, with this status.
fn say<C: Console>(console: &mut C, line: &[u8], status: Status) -> Status
    ensures code { IsOneOf (status.code ∷ 5 ∷ []) result.code }
    ensures said { (result.code ≡ 5 → ⊥) → C.passes console.old (printed line.now) console.new }
{
    match console.put(line) {
        Ok(()) => status,
        Err(_) => Status::DEVICE,
    }
}

fn say_texts<C: Console>(alloc: Global, console: &mut C, why: Refusal) -> Status
    ensures { Says C.passes (status_for why) (refusal_line why) console.old console.new result.code }
{
    let Ok(mut line) = SureDevice::new(alloc, Bytes::new(alloc)) else {
        return Status::MEMORY;
    };
    let status = refuse_texts(alloc, &mut line, why);
    say(console, line.sent(), status)
}

fn say_file<C: Console>(alloc: Global, console: &mut C, why: &FileRefusal) -> Status
    ensures { Says C.passes (status_of_file why.now) (file_line why.now) console.old console.new result.code }
{
    let Ok(mut line) = SureDevice::new(alloc, Bytes::new(alloc)) else {
        return Status::MEMORY;
    };
    let status = refuse_file(alloc, &mut line, why);
    say(console, line.sent(), status)
}

// Says why nothing was done, or not all.
fn say_why<C: Console>(alloc: Global, console: &mut C, why: Stop) -> Status
    ensures { SaysWhy C.passes why console.old console.new result.code }
{
    match why {
        Stop::Texts(why) => say_texts(alloc, console, why),
        Stop::NotKdcfile => say_file(alloc, console, &FileRefusal::NotKdcfile),
        Stop::OtherGeneration(stored) => {
            say_file(alloc, console, &FileRefusal::OtherGeneration(stored))
        }
        Stop::Spent => say_file(alloc, console, &FileRefusal::SequenceSpent),
        Stop::Room => Status::ROOM,
        Stop::Output => Status::DEVICE,
        Stop::Memory => Status::MEMORY,
    }
}

// ---- a word over a place

// The monitor that starts there.
fn bench_of(alloc: Global, application: Application, tables: Tables) -> Result<Bench, OutOfMemory>
    requires fit { IsFit application.generation application.units }
    requires suits { Suits application.generation tables }
    ensures application { IfOk result (λ b. b.application ≡ applied application.generation application.units) }
    ensures state { IfOk result (λ b. b.state ≡ started b.application tables) }
{
    let Application { generation, units } = application;
    Bench::start(alloc, generation, units, tables)
}

// Performs the script, and prints it turn by turn.
fn trace_at<C: Console>(alloc: Global, place: Place, console: C) -> (Result<Status, LabError>, C)
    requires { CanStart place }
    ensures { IfOk result.0 (λ status. Does C.passes (C.prompted console) Word.Trace place console result.1 status.code) }
{
    let Place {
        application,
        tables,
        units,
        script: _,
        commands,
    } = place;
    let Ok(bench) = bench_of(alloc, application, tables) else {
        return (Err(LabError::Memory), console);
    };
    let mut printer = Printer {
        alloc,
        console,
        units,
        traces: true,
    };
    match trace(alloc, bench, &mut printer, &commands) {
        Ok(()) => (Ok(Status::DONE), printer.console),
        Err(error) => (Err(error), printer.console),
    }
}

// Performs what is typed.
fn talk_at<C: Console>(alloc: Global, place: Place, console: C) -> (Result<Status, LabError>, C)
    requires { CanStart place }
    ensures { IfOk result.0 (λ status. Does C.passes (C.prompted console) Word.Talk place console result.1 status.code) }
{
    let Place {
        application,
        tables,
        units,
        script: _,
        commands: _,
    } = place;
    let Ok(bench) = bench_of(alloc, application, tables) else {
        return (Err(LabError::Memory), console);
    };
    let mut printer = Printer {
        alloc,
        console,
        units,
        traces: false,
    };
    match talk(alloc, bench, &mut printer) {
        Ok(_bench) => (Ok(Status::DONE), printer.console),
        Err(error) => (Err(error), printer.console),
    }
}

fn status_of_test(met: bool) -> Status
    ensures { result.code ≡ cond met 0 1 }
{
    if met { Status::DONE } else { DIFFERS }
}

// Compares what the script sends with the lines that it expects.
fn test_at<C: Console>(alloc: Global, place: Place, mut console: C) -> (Result<Status, LabError>, C)
    requires { CanStart place }
    ensures { IfOk result.0 (λ status. Does C.passes (C.prompted console) Word.Test place console result.1 status.code) }
{
    let Place {
        application,
        tables,
        units: _,
        script,
        commands,
    } = place;
    let Ok(bench) = bench_of(alloc, application, tables) else {
        return (Err(LabError::Memory), console);
    };
    match test(alloc, &mut console, bench, &commands, &script) {
        Ok(met) => (Ok(status_of_test(met)), console),
        Err(error) => (Err(error), console),
    }
}

// Tries the orders of the script.
fn explore_at<C: Console>(
    alloc: Global,
    place: Place,
    mut console: C,
    most: u64,
    number: u64,
) -> (Result<Status, LabError>, C)
    requires { CanStart place }
    ensures { IfOk result.0 (λ status. Does C.passes (C.prompted console) (Word.Explore most number) place console result.1 status.code) }
{
    match explore_orders(alloc, &mut console, place, most, number) {
        Ok((status, _explored)) => (Ok(status), console),
        Err(error) => (Err(error), console),
    }
}

// What a word does with what it starts from.
fn work_at<C: Console>(
    alloc: Global,
    word: Word,
    place: Place,
    console: C,
) -> (Result<Status, LabError>, C)
    requires works { word ≡ Word.Check → ⊥ }
    requires starts { CanStart place }
    ensures { IfOk result.0 (λ status. Does C.passes (C.prompted console) word place console result.1 status.code) }
{
    match word {
        Word::Check => unreachable!(),
        Word::Trace => trace_at(alloc, place, console),
        Word::Talk => talk_at(alloc, place, console),
        Word::Explore(most, number) => explore_at(alloc, place, console, most, number),
        Word::Test => test_at(alloc, place, console),
    }
}

// ---- a word

fn reads_script(word: Word) -> bool
    ensures { result ≡ reads_script word }
{
    match word {
        Word::Check | Word::Trace | Word::Explore(_, _) | Word::Test => true,
        Word::Talk => false,
    }
}

// What is done with the texts and the files of this BASE, and with what they start.
fn do_work<R: Room, C: Console>(
    alloc: Global,
    room: &mut R,
    console: C,
    word: Word,
    base: &[u8],
) -> (Result<Status, Stop>, C)
    requires { word ≡ Word.Check → ⊥ }
    ensures came { WordCame C.passes (C.prompted console) word base.now (R.room room.old) (R.room room.new) console result.1 result.0 }
    ensures same { SameRoom (R.room room.old) (R.room room.new) }
{
    let place = match place_of(alloc, room, base, reads_script(word)) {
        Ok(place) => place,
        Err(why) => return (Err(why), console),
    };
    let (done, console) = work_at(alloc, word, place, console);
    match done {
        Ok(status) => (Ok(status), console),
        Err(error) => (Err(Stop::from(error)), console),
    }
}

fn do_request<R: Room, C: Console>(
    alloc: Global,
    room: &mut R,
    mut console: C,
    word: Word,
    base: &[u8],
) -> (Result<Status, Stop>, C)
    ensures came { Came C.passes (C.prompted console) word base.now (R.room room.old) (R.room room.new) console result.1 result.0 }
    ensures same { SameRoom (R.room room.old) (R.room room.new) }
{
    match word {
        Word::Check => {
            let done = check(alloc, room, &mut console, base);
            (done, console)
        }
        Word::Trace | Word::Talk | Word::Explore(_, _) | Word::Test => {
            do_work(alloc, room, console, word, base)
        }
    }
}

// The status of what was done, or of why it was not.
fn status_of<C: Console>(alloc: Global, console: &mut C, done: Result<Status, Stop>) -> Status
    ensures { SaysAll C.passes done console.old console.new result.code }
{
    match done {
        Ok(status) => status,
        Err(why) => say_why(alloc, console, why),
    }
}

/// Does what the words after the program's name ask for, and gives the console back. `check BASE` prints what is found in
/// the texts; `trace BASE` performs BASE.script from the tables of BASE.KDCA, or of the one of two copies that counts, and
/// prints each turn; `talk BASE` performs what is typed; `explore BASE N` tries N orders of the tasks at most, and `explore
/// BASE N NUMBER` draws them from this number; `test BASE` compares what the script sends with its lines that begin with
/// `*>`. No file is made or written.
///
/// The status is 0 where all was done; 1 for words that are none of the forms, for a test whose lines are not met, and where
/// orders differ, a service waits at the end of one, or a RUN of one is spent; 2 for a definition or units that are
/// refused; 3 for a script that is refused; 4 for a KDCFILE that is not one of this application; 5 where the output failed;
/// 6 where a text could not be read; 7 for want of memory.
pub fn lab<R: Room, C: Console>(
    alloc: Global,
    words: &[String],
    room: &mut R,
    mut console: C,
) -> (Status, C)
    ensures { AnswersLab C.passes (C.prompted console) (map string_bytes words.now) (R.room room.old) (R.room room.new) console result.1 result.0.code }
{
    let Some((word, base)) = request_of(words) else {
        let status = say(&mut console, USAGE, Status::USAGE);
        return (status, console);
    };
    let (done, mut console) = do_request(alloc, room, console, word, base);
    let status = status_of(alloc, &mut console, done);
    (status, console)
}
