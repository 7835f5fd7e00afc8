//! What answers a question.
ghost use Rattle.std.specs.Prelude.{◌≡◌, IsTrue, IfOk};
ghost use Rattle.laws_of_states.specs.Keeping.{HasFacts};
ghost use Rattle.live_run.specs.Answers.{Answers, AreLines};

use crate::counts::{Counts, count_lines};
use kd_base::{Bytes, OutOfMemory};
use lab_turns::lab_printing::{job_lines, lock_lines, task_lines};
use monitor_core::Core;
use monitor_parts::output_lines::table_lines;
use std::alloc::Global;
use typed_lines::{Question, echo_line};

fn ends_a_line(text: &[u8]) -> bool
    ensures { IsTrue result → AreLines text.now }
{
    match text.split_last() {
        Some((last, _)) => *last == b'\n',
        None => false,
    }
}

// Lines, or the line that there are none.
fn as_lines(alloc: Global, text: Bytes) -> Result<Bytes, OutOfMemory>
    ensures { IfOk result AreLines }
{
    if ends_a_line(text.as_slice()) {
        return Ok(text);
    }
    let mut text = if text.is_empty() {
        Bytes::from_slice(alloc, b"NONE")?
    } else {
        text
    };
    text.push(b'\n')?;
    Ok(text)
}

/// The answer to a question, which the line asks.
pub(crate) fn answer_of(
    alloc: Global,
    core: &Core,
    counts: &Counts,
    question: Question,
    line: &[u8],
) -> Result<Bytes, OutOfMemory>
    requires { HasFacts core.now.application core.now.state }
    ensures { IfOk result (λ answer. Answers core.now.state line.now answer question) }
{
    match question {
        Question::Show => table_lines(alloc, core.tables()),
        Question::Locks => as_lines(alloc, lock_lines(alloc, core)?),
        Question::Tasks => as_lines(alloc, task_lines(alloc, core)?),
        Question::Jobs => as_lines(alloc, job_lines(alloc, core)?),
        Question::Counts => as_lines(alloc, count_lines(alloc, core, counts)?),
        Question::Echo => echo_line(alloc, line),
    }
}
