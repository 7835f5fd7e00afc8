//! Which question or switch a line is.
ghost use Rattle.std.specs.Prelude.{◌≡◌, IfOk};
ghost use Rattle.typed_lines.specs.Typing.{begins_with_echo, echo_line, question_of, switch_of, typed_by, typed_of};

use kd_base::{Bytes, LONGEST_TEXT, OutOfMemory};
use std::alloc::Global;

/// What is asked of the monitor.
#[derive(Clone, Copy)]
pub enum Question {
    /// The tables, as `show` lists them.
    Show,
    /// Who holds which area, and who waits for which.
    Locks,
    /// What each task does.
    Tasks,
    /// The jobs.
    Jobs,
    /// How much there is of what an operator watches.
    Counts,
    /// The text behind the word, sent back.
    Echo,
}

/// What is set for the lines that follow.
#[derive(Clone, Copy)]
pub enum Switch {
    /// The tasks work after each input, or by RUN and TURN alone.
    Auto(bool),
    /// Commands and turns are printed, or the lines of the monitor alone.
    Trace(bool),
}

/// What a line asks for.
#[derive(Clone, Copy)]
pub enum Typed {
    Question(Question),
    Switch(Switch),
    /// It is a line of a script.
    Script,
}

#[tactic(auto, using(script_read::specs::SameLaws::same_texts))]
fn has_echo(line: &[u8]) -> bool
    ensures { result ≡ begins_with_echo line.now }
{
    line.len() >= 5 && &line[..5] == b"ECHO ".as_slice()
}

#[tactic(auto, using(script_read::specs::SameLaws::same_texts))]
fn question_of(line: &[u8]) -> Option<Question>
    ensures { result ≡ question_of line.now }
{
    if line == b"SHOW".as_slice() {
        Some(Question::Show)
    } else if line == b"LOCKS".as_slice() {
        Some(Question::Locks)
    } else if line == b"TASKS".as_slice() {
        Some(Question::Tasks)
    } else if line == b"JOBS".as_slice() {
        Some(Question::Jobs)
    } else if line == b"COUNTS".as_slice() {
        Some(Question::Counts)
    } else if has_echo(line) {
        Some(Question::Echo)
    } else {
        None
    }
}

#[tactic(auto, using(script_read::specs::SameLaws::same_texts))]
fn switch_of(line: &[u8]) -> Option<Switch>
    ensures { result ≡ switch_of line.now }
{
    if line == b"AUTO".as_slice() {
        Some(Switch::Auto(true))
    } else if line == b"MANUAL".as_slice() {
        Some(Switch::Auto(false))
    } else if line == b"TRACE".as_slice() {
        Some(Switch::Trace(true))
    } else if line == b"QUIET".as_slice() {
        Some(Switch::Trace(false))
    } else {
        None
    }
}

fn typed_by(question: Option<Question>, switch: Option<Switch>) -> Typed
    ensures { result ≡ typed_by question switch }
{
    match (question, switch) {
        (Some(question), _) => Typed::Question(question),
        (None, Some(switch)) => Typed::Switch(switch),
        (None, None) => Typed::Script,
    }
}

/// What a line, without its end, asks for: `SHOW`, `LOCKS`, `TASKS`, `JOBS`, `COUNTS` and `ECHO` with a space and a text
/// are questions, `AUTO`, `MANUAL`, `TRACE` and `QUIET` switches, and any other line is one of a script, also one of more
/// than 16,777,216 bytes.
pub fn typed_of(line: &[u8]) -> Typed
    ensures { result ≡ typed_of line.now }
{
    if line.len() > LONGEST_TEXT {
        return Typed::Script;
    }
    typed_by(question_of(line), switch_of(line))
}

/// What answers a line that begins with `ECHO` and a space: the text behind them, as a line.
pub fn echo_line(alloc: Global, line: &[u8]) -> Result<Bytes, OutOfMemory>
    ensures { IfOk result (λ text. text ≡ echo_line line.now) }
{
    let mut text = match line.get(5..) {
        Some(rest) => Bytes::from_slice(alloc, rest)?,
        None => Bytes::new(alloc),
    };
    text.push(b'\n')?;
    Ok(text)
}
