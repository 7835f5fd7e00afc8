//! What the statements of an accepted definition say, with their lines.
ghost use Rattle.texts.specs.Bounds.{AreWithinBounds};

use application_types::kdcdef_types::{Said, Statement};
use kd_base::OutOfMemory;
use kdcdef_read::read;
use std::alloc::Global;
use texts::kdcdef_lex::{Statements, lines};

/// The statements of a definition, as they are written and as they are read.
#[derive(Drop)]
pub(crate) struct Definition {
    pub raw: Statements,
    pub said: Vec<Statement>,
}

/// The statements of a definition that is accepted; none for any other.
pub(crate) fn statements_of(alloc: Global, text: &[u8]) -> Result<Option<Definition>, OutOfMemory> {
    let Ok(raw) = lines(alloc, text) else {
        return Ok(None);
    };
    let said = read_all(alloc, &raw)?;
    Ok(Some(Definition { raw, said }))
}

// The statements up to the first that is refused.
fn read_all(alloc: Global, raw: &Statements) -> Result<Vec<Statement>, OutOfMemory>
    requires { AreWithinBounds raw.now }
{
    let mut said = Vec::new(alloc);
    let mut reader = read(raw);
    for _ in 0..raw.len() {
        let Ok(Some(statement)) = reader.next(alloc) else {
            break;
        };
        said.push(statement)?;
    }
    Ok(said)
}

/// How many statements say something of this kind.
pub(crate) fn count_of<F: Fn(&Said) -> bool>(said: &[Statement], is_one: F) -> u64
    requires { F.IsAlwaysCallable is_one }
{
    let mut count: u64 = 0;
    for statement in said {
        if is_one(&statement.said) {
            count = count.saturating_add(1);
        }
    }
    count
}
