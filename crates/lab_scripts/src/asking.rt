//! What a typed line asks for.
ghost use Rattle.std.specs.Prelude.{◌≡◌, ◌<◌, IfOk, length};
ghost use Rattle.laws_of_states.specs.Keeping.{HasFacts};
ghost use Rattle.lab_scripts.specs.Talking.{IsListed, ask_of};

use kd_base::{Bytes, OutOfMemory};
use lab_turns::lab_printing::{job_lines, lock_lines, task_lines};
use monitor_core::Core;
use monitor_parts::output_lines::table_lines;
use std::alloc::Global;
use typed_lines::{Question, Switch, Typed, typed_of};

/// What is listed of the monitor.
#[derive(Clone, Copy)]
pub enum Listed {
    /// The tables that `utm show` would list.
    Tables,
    /// Who holds which area, and who waits for which.
    Locks,
    /// What each task does.
    Tasks,
    Jobs,
}

/// What a line asks for.
#[derive(Clone, Copy)]
pub enum Ask {
    Lists(Listed),
    /// The tasks work after each input, or by RUN and TURN alone.
    Auto(bool),
    /// Commands and turns are printed, or the lines of the monitor alone.
    Trace(bool),
    /// It is a line of a script.
    Script,
}

/// What a line, without its end, asks for. `COUNTS` and `ECHO` are questions of a live session alone.
pub(crate) fn ask_of(line: &[u8]) -> Ask
    ensures { result ≡ ask_of line.now }
{
    match typed_of(line) {
        Typed::Question(Question::Show) => Ask::Lists(Listed::Tables),
        Typed::Question(Question::Locks) => Ask::Lists(Listed::Locks),
        Typed::Question(Question::Tasks) => Ask::Lists(Listed::Tasks),
        Typed::Question(Question::Jobs) => Ask::Lists(Listed::Jobs),
        Typed::Question(Question::Counts) => Ask::Script,
        Typed::Question(Question::Echo) => Ask::Script,
        Typed::Switch(Switch::Auto(on)) => Ask::Auto(on),
        Typed::Switch(Switch::Trace(on)) => Ask::Trace(on),
        Typed::Script => Ask::Script,
    }
}

// Lines, or the line that there are none.
fn or_none(alloc: Global, text: Bytes) -> Result<Bytes, OutOfMemory>
    ensures { IfOk result (λ lines. 0 < length lines) }
{
    if text.is_empty() {
        return Bytes::from_slice(alloc, b"NONE\n");
    }
    Ok(text)
}

/// The lines that are asked for.
pub(crate) fn lines_of(alloc: Global, core: &Core, which: Listed) -> Result<Bytes, OutOfMemory>
    requires { HasFacts core.now.application core.now.state }
    ensures { IfOk result (λ text. IsListed core.now.state text which) }
{
    match which {
        Listed::Tables => table_lines(alloc, core.tables()),
        Listed::Locks => or_none(alloc, lock_lines(alloc, core)?),
        Listed::Tasks => or_none(alloc, task_lines(alloc, core)?),
        Listed::Jobs => or_none(alloc, job_lines(alloc, core)?),
    }
}
