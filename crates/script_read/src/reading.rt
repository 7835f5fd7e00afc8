//! Reading a script.
ghost use Rattle.std.specs.{Prelude.{◌≡◌, ◌≢◌, ◌<◌, ◌-◌, ◌^◌, List, ℕ, length, nat_lt, Ok, Err, IfOk, IfErr}, List.{All}, Str.Lines.{lines}};
ghost use Rattle.kd_base.specs.FirstFaults.{items_of};
ghost use Rattle.script_read.specs.{declared.fault.ScriptFault.TheVariants.{Memory}, Script.{Line, command_lines, is_too_long}, Commands.{script_in}, Reading.{line_result, Gives, commands_of}};
ghost use Rattle.abstract_monitor.specs.CommandsOf.{IsCommandOf};

use crate::fault::ScriptFault;
use crate::line::is_passed;
use abstract_monitor::Command;
use application_types::generation::Generation;
use kd_base::{LONGEST_TEXT, Sequence};
use std::alloc::Global;
use texts::next_line;

/// The greatest number of lines that are neither empty nor comments.
const MAX_COMMANDS: u32 = 1_000_000;

/// What reads one line.
pub(crate) trait LineReader {
    type Command: Drop;

    /// What a line says.
    ghost line_of: { Self → List ℕ → Line Self.Command };

    /// The command of this line, if it has one.
    fn command_of(
        &self,
        alloc: Global,
        number: u32,
        line: &[u8],
    ) -> Result<Option<Self::Command>, ScriptFault>
        ensures { Gives result (line_result number (line_of self.now line.now)) };
}

fn has_too_many_commands(text: &[u8]) -> bool
    ensures { result ≡ nat_lt 1000000 (command_lines (lines text.now)) }
{
    let mut count: u32 = 0;
    let mut rest = text;
    while !rest.is_empty() {
        let (line, after) = next_line(rest);
        if !is_passed(line) {
            if count >= MAX_COMMANDS {
                return true;
            }
            count += 1;
        }
        rest = after;
    }
    false
}

fn is_too_long(text: &[u8]) -> bool
    ensures { result ≡ is_too_long text.now }
{
    text.len() > LONGEST_TEXT || has_too_many_commands(text)
}

// The commands of a text whose lines can be numbered, or its first fault.
fn commands_of<R: LineReader>(
    alloc: Global,
    reader: &R,
    text: &[u8],
) -> Result<Vec<R::Command>, ScriptFault>
    requires { length text.now < 2 ^ 32 - 1 }
    ensures { Gives (items_of result) (commands_of (R.line_of reader.now) text.now) }
{
    let mut commands = Sequence::new(alloc);
    let mut number: u32 = 1;
    let mut rest = text;
    while !rest.is_empty() {
        let (line, after) = next_line(rest);
        if let Some(command) = reader.command_of(alloc, number, line)? {
            commands.push(command)?;
        }
        number += 1;
        rest = after;
    }
    Ok(commands.into_vec())
}

/// The commands of a script in the order of its lines, or its first fault: `IN`, `TICK`, `RUN`, `TURN`, `DROP`, `PRINT`
/// and `RESTART`, whose PTERMs and tasks are those of the generation. Lines end in LF, or in CR and LF; the last may lack
/// its end.
pub fn read_script(
    alloc: Global,
    generation: &Generation,
    text: &[u8],
) -> Result<Vec<Command>, ScriptFault>
    // What was read is what the text says.
    ensures found { IfOk result (λ commands. script_in generation.now text.now ≡ Ok commands.items) }
    // A fault that is answered is the one that the text has.
    ensures refused { IfErr result (λ fault. fault ≢ Memory → script_in generation.now text.now ≡ Err fault) }
    // The PTERMs and tasks are those of the generation.
    ensures names { IfOk result (λ commands. All (IsCommandOf generation.now) commands.items) }
{
    if is_too_long(text) {
        return Err(ScriptFault::TooLong);
    }
    commands_of(alloc, generation, text)
}
