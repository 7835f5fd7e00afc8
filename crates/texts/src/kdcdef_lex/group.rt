//! Groups: the lines of one statement, joined where they are continued.
ghost use Rattle.std.specs.{Prelude.{◌≡◌, ◌+◌, ◌-◌, ◌<◌, ◌≤◌, ◌^◌, ◌∷◌, [], false, length, IfOk, IfSome, MatchOption, None}, Str.Lines.{lines}};
ghost use Rattle.texts.specs.{Lines.{is_passed, continued}, Groups.{groups}};

use crate::kdcdef_lex::line::{continued, is_passed};
use crate::next_line;
use kd_base::{Bytes, OutOfMemory};
use std::alloc::Global;

/// The lines of one statement, joined, with the numbers of the first and the last.
pub(crate) struct Group {
    pub first: u32,
    pub last: u32,
    pub text: Bytes,
    /// No line follows the last one, which is continued.
    pub dangling: bool,
}

impl Drop for Group {
    fn drop(self) {
        let Group {
            first,
            last,
            text,
            dangling,
        } = self;
        let _ = first;
        let _ = last;
        let _ = text;
        let _ = dangling;
    }
}

// The lines that belong to a statement which begins at this line, and the text after them.
fn group_of<'a>(
    alloc: Global,
    number: u32,
    mut line: &'a [u8],
    mut rest: &'a [u8],
) -> Result<(Group, &'a [u8]), OutOfMemory>
    requires begins { is_passed line.now ≡ false }
    requires bounded { number + length rest.now < 2 ^ 32 }
    ensures group { IfOk result (λ found. groups None number (line.now ∷ lines rest.now) ≡ found.0 ∷ groups None (found.0.last + 1) (lines found.1.now)) }
    ensures bounded { IfOk result (λ found. found.0.last + length found.1.now ≤ number + length rest.now) }
    ensures shorter { IfOk result (λ found. length found.1.now ≤ length rest.now) }
{
    let mut text = Bytes::new(alloc);
    let mut last = number;
    while let Some(body) = continued(line) {
        text.append(body)?;
        if rest.is_empty() {
            return Ok((
                Group {
                    first: number,
                    last,
                    text,
                    dangling: true,
                },
                rest,
            ));
        }
        let (next, after) = next_line(rest);
        line = next;
        rest = after;
        last += 1;
    }
    text.append(line)?;
    Ok((
        Group {
            first: number,
            last,
            text,
            dangling: false,
        },
        rest,
    ))
}

// The first line that is neither empty nor a comment: its number, itself, and the text after it.
fn begun(number: u32, text: &[u8]) -> Option<(u32, &[u8], &[u8])>
    requires bounded { number + length text.now < 2 ^ 32 }
    ensures groups { MatchOption result (groups None number (lines text.now) ≡ []) (λ found. groups None number (lines text.now) ≡ groups None found.0 (found.1.now ∷ lines found.2.now)) }
    ensures begins { IfSome result (λ found. is_passed found.1.now ≡ false) }
    ensures bounded { IfSome result (λ found. found.0 + length found.2.now < number + length text.now) }
    ensures shorter { IfSome result (λ found. length found.2.now < length text.now) }
{
    let mut number = number;
    let mut rest = text;
    while !rest.is_empty() {
        let (line, after) = next_line(rest);
        if !is_passed(line) {
            return Some((number, line, after));
        }
        number += 1;
        rest = after;
    }
    None
}

/// The lines of the next statement, and the text after them.
pub(crate) fn next_group(
    alloc: Global,
    number: u32,
    text: &[u8],
) -> Result<Option<(Group, &[u8])>, OutOfMemory>
    requires bounded { number + length text.now < 2 ^ 32 }
    ensures group { IfOk result (λ found. MatchOption found (groups None number (lines text.now) ≡ []) (λ g. groups None number (lines text.now) ≡ g.0 ∷ groups None (g.0.last + 1) (lines g.1.now))) }
    ensures bounded { IfOk result (λ found. IfSome found (λ g. g.0.last + length g.1.now < number + length text.now)) }
    ensures shorter { IfOk result (λ found. IfSome found (λ g. length g.1.now < length text.now)) }
{
    match begun(number, text) {
        None => Ok(None),
        Some((number, line, rest)) => Ok(Some(group_of(alloc, number, line, rest)?)),
    }
}
