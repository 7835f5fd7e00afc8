//! A statement, read after those before it.
ghost use Rattle.std.specs.Prelude.{◌≡◌, ◌+◌, ◌<◌, ◌≤◌, ◌^◌, length, Ok};
ghost use Rattle.kdcdef_read.specs.Steps.{Gives, is_end, for_max, said_by, given_by, kept_by, statement_by, step};

use crate::fault::{ReadFault, at_line};
use crate::operands::{Given, Taken, read_operands};
use crate::said::said_of;
use crate::words::{Form, KEYS, Keyword, form_of};
use application_types::kdcdef_types::{Said, Statement};
use std::alloc::Global;
use texts::kdcdef_lex::RawStatement;

/// Where the reading is.
#[derive(Clone, Copy)]
pub(crate) struct Progress {
    /// The operands that the MAX statements so far have given.
    pub taken: Taken,
    /// END was read.
    pub ended: bool,
    /// One more than the line of the last statement, and 1 where there is none.
    pub next: u32,
}

// The statement that its operands make.
fn said_by(
    alloc: Global,
    keyword: Keyword,
    raw: &RawStatement,
    given: &Given,
) -> Result<Statement, ReadFault>
    ensures { Gives result (said_by keyword raw.now.line raw.now.operands given.now) }
{
    match said_of(alloc, keyword, given, &raw.operands)? {
        Some(said) => Ok(Statement {
            line: raw.line,
            passed: given.passed,
            said,
        }),
        None => Err(ReadFault::OperandMissing(raw.line)),
    }
}

// The first for MAX, whose statements share their operands, and else the second.
fn for_max(keyword: Keyword, own: Taken, other: Taken) -> Taken
    ensures { result ≡ for_max keyword own other }
{
    match keyword {
        Keyword::Max => own,
        _ => other,
    }
}

// A statement with these operands, and those that MAX statements have given after it.
fn given_by(
    alloc: Global,
    keyword: Keyword,
    taken: Taken,
    raw: &RawStatement,
    given: &Given,
) -> Result<(Statement, Taken), ReadFault>
    ensures { Gives result (given_by keyword taken raw.now.line raw.now.operands (Ok given.now)) }
{
    let statement = said_by(alloc, keyword, raw, given)?;
    Ok((statement, for_max(keyword, given.taken, taken)))
}

// A statement with this keyword, and the operands that MAX statements have given after it.
fn kept_by(
    alloc: Global,
    keyword: Keyword,
    taken: Taken,
    raw: &RawStatement,
) -> Result<(Statement, Taken), ReadFault>
    requires { length raw.now.operands ≤ 16777216 }
    ensures { Gives result (kept_by keyword taken raw.now) }
{
    let before = for_max(keyword, taken, [false; KEYS]);
    match read_operands(keyword, before, &raw.operands) {
        Ok(given) => given_by(alloc, keyword, taken, raw, &given),
        Err(cause) => Err(at_line(raw.line, cause)),
    }
}

// A statement, whatever its keyword, and the operands that MAX statements have given after it.
fn statement_by(
    alloc: Global,
    taken: Taken,
    raw: &RawStatement,
) -> Result<(Statement, Taken), ReadFault>
    requires { length raw.now.operands ≤ 16777216 }
    ensures { Gives result (statement_by taken raw.now) }
{
    let line = raw.line;
    match form_of(raw.keyword.as_slice()) {
        Some(Form::Kept(keyword)) => kept_by(alloc, keyword, taken, raw),
        Some(Form::Passed) => {
            let said = Said::Passed;
            Ok((
                Statement {
                    line,
                    passed: 0,
                    said,
                },
                taken,
            ))
        }
        Some(Form::End) => {
            let passed = raw.operands.count();
            let said = Said::End;
            Ok((Statement { line, passed, said }, taken))
        }
        None => Err(ReadFault::UnknownStatement(line)),
    }
}

fn is_end(said: &Said) -> bool
    ensures { result ≡ is_end said.now }
{
    matches!(said, Said::End)
}

/// The next statement, and where the reading is after it.
pub(crate) fn step(
    alloc: Global,
    progress: Progress,
    raw: &RawStatement,
) -> Result<(Statement, Progress), ReadFault>
    requires operands { length raw.now.operands ≤ 16777216 }
    requires line { raw.now.line ≤ 16777217 }
    ensures { Gives result (step progress raw.now) }
{
    if progress.ended {
        return Err(ReadFault::AfterEnd(raw.line));
    }
    let (statement, taken) = statement_by(alloc, progress.taken, raw)?;
    let ended = is_end(&statement.said);
    Ok((
        statement,
        Progress {
            taken,
            ended,
            next: raw.line + 1,
        },
    ))
}
