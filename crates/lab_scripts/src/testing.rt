//! A script, against the lines that it expects.
ghost use Rattle.std.specs.{Prelude.{◌≡◌, ◌∷◌, ◌++◌, ◌↔◌, [], IfOk, IsTrue, MatchResult, OnOk, Ok}, Str.Lines.{lines}};
ghost use Rattle.abstract_monitor.specs.{CommandsOf.{IsCommandOf}, Commands.{acts_of, steps_of}, Trace.{bytes_of}};
ghost use Rattle.laws_of_states.specs.Keeping.{IsScriptOf};
ghost use Rattle.script_read.specs.Commands.{script_in};
ghost use Rattle.lab_turns.specs.{Consoles.{printed}, Running.{DidSteps}};
ghost use Rattle.lab_scripts.specs.{Expected.{expected_of, lines_sent, sent_of}, Met.{IsFirstDifference, IsMet, lines_expected}, Printing.{TellsTest}};

use crate::difference::{Difference, Last};
use crate::recorder::Recorder;
use crate::script_lines::{is_passed, next_of, text_in};
use crate::telling::{difference_lines, met_line, tell_progress};
use abstract_monitor::Command;
use kd_base::Bytes;
use lab_turns::lab_printing::Console;
use lab_turns::{Bench, LabError};
use script_read::commands_are_said;
use std::alloc::Global;
use texts::next_line;

// One command, and the lines that it sends.
fn sent_by(alloc: Global, bench: Bench, command: &Command) -> Result<(Bench, Recorder), LabError>
    requires { IsCommandOf bench.application.generation command.now }
    ensures done { IfOk result (λ r. DidSteps bench (steps_of bench.application bench.state command.now) r.0) }
    ensures sent { IfOk result (λ r. r.1 ≡ bytes_of (acts_of (steps_of bench.application bench.state command.now))) }
{
    let mut recorder = Recorder::new(alloc);
    let next = bench.perform(alloc, &mut recorder, command)?;
    Ok((next, recorder))
}

// The command in this line of the script is done.
fn do_command(
    alloc: Global,
    bench: Bench,
    command: &Command,
    line: u32,
) -> Result<(Bench, Last), LabError>
    requires { IsCommandOf bench.application.generation command.now }
    ensures done { IfOk result (λ r. DidSteps bench (steps_of bench.application bench.state command.now) r.0) }
    ensures line { IfOk result (λ r. r.1.line ≡ line) }
    ensures sent { IfOk result (λ r. lines r.1.sent ≡ lines_sent bench.application bench.state command.now) }
{
    let (next, recorder) = sent_by(alloc, bench, command)?;
    let last = Last {
        line,
        sent: recorder.into_sent(),
    };
    Ok((next, last))
}

// How many lines are met, or the first difference.
fn trial_of<C: Console>(
    alloc: Global,
    console: &mut C,
    mut bench: Bench,
    commands: &[Command],
    script: &[u8],
) -> Result<Result<u64, Difference>, LabError>
    requires names { IsScriptOf bench.application commands.now }
    requires says { script_in bench.application.generation script.now ≡ Ok commands.now }
    ensures found { IfOk result (λ found. MatchResult found (λ met. IsMet (expected_of script.now) (sent_of bench.application bench.state commands.now) × (met ≡ lines_expected (expected_of script.now))) (IsFirstDifference (expected_of script.now) (sent_of bench.application bench.state commands.now))) }
    ensures quiet { OnOk result (C.passes console.old [] console.new) }
{
    commands_are_said();
    let mut last = Last {
        line: 0,
        sent: Bytes::new(alloc),
    };
    let mut left = commands;
    let mut met: u64 = 0;
    let mut number: u32 = 0;
    let mut rest = script;
    while !rest.is_empty() {
        let (line, after) = next_line(rest);
        number += 1;
        tell_progress(alloc, console, number)?;
        if let Some(text) = text_in(line) {
            if let Some(found) = last.expect(alloc, number, text)? {
                return Ok(Err(found));
            }
            met += 1;
        } else if !is_passed(line) {
            if let Some(found) = last.left_over(alloc)? {
                return Ok(Err(found));
            }
            let (command, behind) = next_of(left);
            let (next, done) = do_command(alloc, bench, command, number)?;
            bench = next;
            last = done;
            left = behind;
        }
        rest = after;
    }
    match last.left_over(alloc)? {
        Some(found) => Ok(Err(found)),
        None => Ok(Ok(met)),
    }
}

/// Performs the commands of a script, and compares the lines that each of them sends with those that are expected of it,
/// which begin with `*>` in the lines behind it. Prints `OK` and how many lines are met, or the first difference; and says
/// whether all are met.
pub fn test<C: Console>(
    alloc: Global,
    console: &mut C,
    bench: Bench,
    commands: &[Command],
    script: &[u8],
) -> Result<bool, LabError>
    requires names { IsScriptOf bench.application commands.now }
    requires says { script_in bench.application.generation script.now ≡ Ok commands.now }
    ensures met { IfOk result (λ met. IsTrue met ↔ IsMet (expected_of script.now) (sent_of bench.application bench.state commands.now)) }
    ensures printed { IfOk result (λ met. TellsTest C.passes (expected_of script.now) (sent_of bench.application bench.state commands.now) met console.old console.new) }
{
    match trial_of(alloc, console, bench, commands, script)? {
        Ok(lines) => {
            console.put(met_line(alloc, lines)?.as_slice())?;
            Ok(true)
        }
        Err(found) => {
            console.put(difference_lines(alloc, &found)?.as_slice())?;
            Ok(false)
        }
    }
}
