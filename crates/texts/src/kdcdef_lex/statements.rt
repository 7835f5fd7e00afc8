//! The statements of a text, kept in little room.
ghost use Rattle.std.specs.Prelude.{◌≡◌, ◌∷◌, ◌++◌, [], ◌<◌, length, slice_get, Some, IsTrue, is_some, OnOk};
ghost use Rattle.texts.specs.Parsing.{spelled_at, statement_in};

use crate::kdcdef_lex::parse::word_at;
use crate::kdcdef_lex::statement::{Operands, RawStatement};
use crate::kdcdef_lex::tokens::Tokens;
use kd_base::OutOfMemory;
use std::alloc::Global;
use std::marker::Model;

/// Where a statement is among the bytes of all.
#[derive(Clone, Copy)]
struct Place {
    /// The number of its first line, counted from 1.
    line: u32,
    from: usize,
    end: usize,
}

/// The statements of a text, in their order. Contracts see the list of them.
///
/// They are kept as their bytes, with their lines joined: so many statements take little more room than their text, and
/// each is read where it stands.
#[derive(Drop)]
pub struct Statements {
    bytes: Vec<u8>,
    places: Vec<Place>,
}

impl Model for Statements {
    ghost use Rattle.std.specs.Prelude.{List};
    ghost use Rattle.texts.specs.declared.kdcdef_lex.statement.RawStatement.{RawStatement};

    ghost Value = { List RawStatement };

    ghost use Rattle.texts.specs.Kept.{statements_at, AreSpelled};

    ghost view = { λ s. statements_at s.bytes.items s.places.items };

    ghost invariant = { λ s. AreSpelled s.bytes.items s.places.items };
}

impl Statements {
    pub(crate) fn new(alloc: Global) -> Statements
        ensures { result ≡ [] }
    {
        Statements {
            bytes: Vec::new(alloc),
            places: Vec::new(alloc),
        }
    }

    /// Adds the statement at this line that these bytes are.
    pub(crate) fn push(&mut self, line: u32, text: &[u8]) -> Result<(), OutOfMemory>
        requires { IsTrue (is_some (spelled_at line text.now)) }
        ensures { OnOk result (self.new ≡ self.old ++ statement_in line text.now ∷ []) }
    {
        let from = self.bytes.len();
        self.bytes.extend_from_slice(text)?;
        let end = self.bytes.len();
        self.places.push(Place { line, from, end })?;
        Ok(())
    }

    /// How many statements there are. It takes no memory.
    pub fn len(&self) -> usize
        ensures { result ≡ length self.now }
    {
        self.places.len()
    }

    /// The statement at this place, counted from 0. It takes no memory.
    pub fn statement(&self, place: usize) -> RawStatement<'_>
        requires { place < length self.now }
        ensures { slice_get self.now place ≡ Some result }
    {
        let Place { line, from, end } = self.places[place];
        let tokens = Tokens::known(&self.bytes[from..end]);
        let Some((keyword, rest)) = word_at(&tokens) else {
            unreachable!();
        };
        RawStatement {
            line,
            keyword,
            operands: Operands::known(rest),
        }
    }

    /// The bytes of the statements, one after another. It takes no memory.
    pub fn bytes(&self) -> &[u8] {
        self.bytes.as_slice()
    }
}
