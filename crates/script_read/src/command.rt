//! The command of a line.
ghost use Rattle.std.specs.{Prelude.{◌≡◌, ◌<◌, false, true, length}, List.{list_all}};
ghost use Rattle.kd_base.specs.Limits.{last_clock};
ghost use Rattle.abstract_monitor.specs.declared.command.Command.TheVariants.{Tick, Run, Turn, Drop, Print, PrintLast};
ghost use Rattle.script_read.specs.{Script.{words, is_passed, begins_with_space, as_command, numbered}, Commands.{is_text_byte, last_turns, pterm_in, input, alone, with_one, with_two, with_words, line_of_words, command_by, begins_with_in, line_in}};
ghost use Rattle.script_read.specs.Reading.{line_result, found_of, Gives};

use crate::fault::ScriptFault;
use crate::keyword::{Keyword, keyword_of};
use crate::line::is_passed;
use crate::number::number_of;
use crate::reading::LineReader;
use crate::terminal::pterm_of;
use crate::word::{next_word, same, split_at_space};
use abstract_monitor::Command;
use application_types::generation::Generation;
use kd_base::{Bytes, LAST_CLOCK};
use std::alloc::Global;

/// The greatest number of a RUN.
const LAST_TURNS: u64 = 1_000_000;

fn is_text(bytes: &[u8]) -> bool
    ensures { result ≡ list_all is_text_byte bytes.now }
{
    bytes.iter().all(|b| b' ' <= *b && *b <= b'~')
}

// What is after `IN` and its space: the name up to the first space, and after that space the text.
fn input_of(
    alloc: Global,
    generation: &Generation,
    line: u32,
    rest: &[u8],
) -> Result<Command, ScriptFault>
    ensures { Gives (found_of result) (line_result line (input generation.now rest.now)) }
{
    let (name, text) = split_at_space(rest);
    if !is_text(text) {
        return Err(ScriptFault::BadLine(line));
    }
    let pterm = pterm_of(generation, line, false, name)?;
    Ok(Command::Input(pterm, Bytes::from_slice(alloc, text)?))
}

// A keyword alone.
fn alone(line: u32, keyword: Keyword) -> Result<Command, ScriptFault>
    ensures { found_of result ≡ line_result line (alone keyword) }
{
    match keyword {
        Keyword::Restart => Ok(Command::Restart),
        _ => Err(ScriptFault::BadLine(line)),
    }
}

fn tick(line: u32, word: &[u8]) -> Result<Command, ScriptFault>
    requires { 0 < length word.now }
    ensures { found_of result ≡ line_result line (as_command Tick (numbered 0 last_clock word.now)) }
{
    Ok(Command::Tick(number_of(line, 0, LAST_CLOCK, word)?))
}

fn run(line: u32, word: &[u8]) -> Result<Command, ScriptFault>
    requires { 0 < length word.now }
    ensures { found_of result ≡ line_result line (as_command Run (numbered 0 last_turns word.now)) }
{
    Ok(Command::Run(number_of(line, 0, LAST_TURNS, word)?))
}

fn turn(generation: &Generation, line: u32, word: &[u8]) -> Result<Command, ScriptFault>
    requires { 0 < length word.now }
    ensures { found_of result ≡ line_result line (as_command Turn (numbered 1 generation.now.limits.tasks word.now)) }
{
    let tasks = u64::from(generation.max().tasks);
    Ok(Command::Turn(number_of(line, 1, tasks, word)? as u16))
}

fn drop_at(generation: &Generation, line: u32, word: &[u8]) -> Result<Command, ScriptFault>
    ensures { found_of result ≡ line_result line (as_command Drop (pterm_in generation.now false word.now)) }
{
    Ok(Command::Drop(pterm_of(generation, line, false, word)?))
}

fn print_at(generation: &Generation, line: u32, word: &[u8]) -> Result<Command, ScriptFault>
    ensures { found_of result ≡ line_result line (as_command Print (pterm_in generation.now true word.now)) }
{
    Ok(Command::Print(pterm_of(generation, line, true, word)?))
}

fn print_last(generation: &Generation, line: u32, word: &[u8]) -> Result<Command, ScriptFault>
    ensures { found_of result ≡ line_result line (as_command PrintLast (pterm_in generation.now true word.now)) }
{
    Ok(Command::PrintLast(pterm_of(generation, line, true, word)?))
}

// A keyword and a word.
fn with_one(
    generation: &Generation,
    line: u32,
    keyword: Keyword,
    word: &[u8],
) -> Result<Command, ScriptFault>
    requires { 0 < length word.now }
    ensures { found_of result ≡ line_result line (with_one generation.now keyword word.now) }
{
    match keyword {
        Keyword::Tick => tick(line, word),
        Keyword::Run => run(line, word),
        Keyword::Turn => turn(generation, line, word),
        Keyword::Drop => drop_at(generation, line, word),
        Keyword::Print => print_at(generation, line, word),
        Keyword::Restart => Err(ScriptFault::BadLine(line)),
    }
}

// A keyword and two words.
fn with_two(
    generation: &Generation,
    line: u32,
    keyword: Keyword,
    word: &[u8],
    last: &[u8],
) -> Result<Command, ScriptFault>
    ensures { found_of result ≡ line_result line (with_two generation.now keyword word.now last.now) }
{
    match keyword {
        Keyword::Print if same(last, b"LAST") => print_last(generation, line, word),
        _ => Err(ScriptFault::BadLine(line)),
    }
}

// What a keyword and what follows it say.
fn with_keyword(
    generation: &Generation,
    number: u32,
    keyword: Keyword,
    operands: &[u8],
) -> Result<Command, ScriptFault>
    ensures { found_of result ≡ line_result number (with_words generation.now keyword (words operands.now)) }
{
    let Some((word, rest)) = next_word(operands) else {
        return alone(number, keyword);
    };
    let Some((last, rest)) = next_word(rest) else {
        return with_one(generation, number, keyword, word);
    };
    if next_word(rest).is_some() {
        return Err(ScriptFault::BadLine(number));
    }
    with_two(generation, number, keyword, word, last)
}

// What the words of this line say.
fn command_of_words(
    generation: &Generation,
    number: u32,
    line: &[u8],
) -> Result<Command, ScriptFault>
    ensures { found_of result ≡ line_result number (line_of_words generation.now (words line.now)) }
{
    let Some((first, rest)) = next_word(line) else {
        return Err(ScriptFault::BadLine(number));
    };
    let Some(keyword) = keyword_of(first) else {
        return Err(ScriptFault::BadLine(number));
    };
    with_keyword(generation, number, keyword, rest)
}

// The command of a line that is not passed over and begins with no space.
fn command_on(
    alloc: Global,
    generation: &Generation,
    number: u32,
    line: &[u8],
) -> Result<Command, ScriptFault>
    ensures { Gives (found_of result) (line_result number (command_by (begins_with_in line.now) generation.now line.now)) }
{
    match line.strip_prefix(b"IN ") {
        Some(rest) => input_of(alloc, generation, number, rest),
        None => command_of_words(generation, number, line),
    }
}

impl LineReader for Generation {
    type Command = Command;

    ghost line_of = { line_in };

    fn command_of(
        &self,
        alloc: Global,
        number: u32,
        line: &[u8],
    ) -> Result<Option<Command>, ScriptFault> {
        if is_passed(line) {
            return Ok(None);
        }
        if line[0] == b' ' {
            return Err(ScriptFault::BadLine(number));
        }
        Ok(Some(command_on(alloc, self, number, line)?))
    }
}
