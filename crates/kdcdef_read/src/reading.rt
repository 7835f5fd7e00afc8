//! The statements of a text, one after another.
ghost use Rattle.std.specs.Prelude.{◌≡◌, ◌≢◌, ◌+◌, ◌≤◌, ◌<◌, List, Ok, Err, IfOk, IfErr, IfSome};
ghost use Rattle.texts.specs.Bounds.{AreWithinBounds};
ghost use Rattle.application_types.specs.{Statements.{AreRead}, declared.kdcdef_types.statement.Statement.{Statement}};
ghost use Rattle.kdcdef_read.specs.{Meaning.{StandFor, HasFault}, Reading.{followed}, declared.fault.ReadFault.{ReadFault}, declared.fault.ReadFault.TheVariants.{Memory}};

use crate::fault::ReadFault;
use crate::statement::{Progress, step};
use crate::words::KEYS;
use application_types::kdcdef_types::Statement;
use std::alloc::Global;
use std::marker::Model;
use texts::kdcdef_lex::Statements;

/// Reads raw statements as typed ones. Contracts see what is read of those that are left, how many they are, and the
/// least line that the next one may have.
#[derive(Drop)]
pub struct Reader<'a> {
    raw: &'a Statements,
    // The place of the next statement.
    at: usize,
    progress: Progress,
}

impl<'a> Model for Reader<'a> {
    ghost use Rattle.kdcdef_read.specs.Left.{Left};

    ghost Value = { Left };

    ghost use Rattle.kdcdef_read.specs.Reading.{left_of, IsWithinBounds};

    ghost view = { λ r. left_of r.progress r.at r.raw.now };

    ghost invariant = { λ r. IsWithinBounds r.progress r.at r.raw.now };
}

/// Reads raw statements as typed ones, in their order, up to their first fault.
///
/// Lines are at most 16,777,217, and there are at most 16,777,216 operands together, as `lines` gives them.
pub fn read(raw: &Statements) -> Reader<'_>
    requires { AreWithinBounds raw.now }
    // Each statement says what its raw one says.
    ensures found { (ss : List Statement) → result.read ≡ Ok ss → StandFor raw.now ss }
    // What the raw statements say is read.
    ensures only { (ss : List Statement) → StandFor raw.now ss → result.read ≡ Ok ss }
    // The fault that is read is there.
    ensures fault { (e : ReadFault) → result.read ≡ Err e → HasFault raw.now e }
    // Statements with the fault are refused for it.
    ensures refused { (e : ReadFault) → HasFault raw.now e → result.read ≡ Err e }
    // What the next reader may rely on.
    ensures read { (ss : List Statement) → result.read ≡ Ok ss → AreRead ss }
{
    Reader {
        raw,
        at: 0,
        progress: Progress {
            taken: [false; KEYS],
            ended: false,
            next: 1,
        },
    }
}

impl<'a> Reader<'a> {
    /// The next statement, which is taken out; `None` at the end.
    pub fn next(&mut self, alloc: Global) -> Result<Option<Statement>, ReadFault>
        ensures found { IfOk result (λ found. self.old.read ≡ followed found self.new.read) }
        ensures fault { IfErr result (λ e. e ≢ Memory → self.old.read ≡ Err e) }
        // It is behind those before it.
        ensures order { IfOk result (λ found. IfSome found (λ s. (self.old.next ≤ s.line) × (self.new.next ≡ s.line + 1))) }
        ensures fewer { IfOk result (λ found. IfSome found (λ s. self.new.count < self.old.count)) }
    {
        let raw = self.raw;
        if self.at >= raw.len() {
            if !self.progress.ended {
                return Err(ReadFault::NoEnd(self.progress.next));
            }
            return Ok(None);
        }
        let (statement, progress) = step(alloc, self.progress, &raw.statement(self.at))?;
        self.progress = progress;
        self.at += 1;
        Ok(Some(statement))
    }
}
