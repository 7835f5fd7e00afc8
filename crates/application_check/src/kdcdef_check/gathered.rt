//! The statements of a text, gathered one after another.
ghost use Rattle.std.specs.Prelude.{◌≡◌, ◌++◌, ◌∷◌, [], List, None, IfOk, OnOk};
ghost use Rattle.application_types.specs.declared.kdcdef_types.statement.Statement.{Statement};
ghost use Rattle.application_check.specs.{Steps.{IsNamed}, Gathering.{may_be_named, IsBehind, WereGathered, IsGathered, OfGathered}};

use crate::kdcdef_check::fault::CheckFault;
use crate::kdcdef_check::own::own_fault;
use crate::kdcdef_check::tables::Tables;
use crate::kdcdef_check::tally::Tally;
use application_types::generation::NameHashing;
use application_types::kdcdef_types::{Said, Statement};
use kd_base::OutOfMemory;
use std::alloc::Global;

/// What was gathered of statements.
///
/// After the first fault that shows at a statement and those before it, a later statement can only matter for its name,
/// where an earlier one names it. So what is kept is bounded: no kind has more than 20,001 statements up to that fault.
#[derive(Drop)]
pub struct Gathered {
    pub(crate) tables: Box<Tables>,
    pub(crate) tally: Tally,
    /// The first of the faults that show at a statement and those before it.
    pub(crate) first: Option<CheckFault>,
    /// The statements up to the one that has it.
    pub(crate) kept: Vec<Statement>,
}

// That the name of a TAC, a user or a terminal is one: its type keeps that, and its calls say it.
fn know_name(said: &Said)
    ensures { IsNamed said.now }
{
    match said {
        Said::Tac(name, _) | Said::User(name, _) | Said::Pterm(name, _) | Said::Lterm(name, _) => {
            let _bytes = name.as_slice(); // for the proof
        }
        _ => {}
    }
}

// Whether other statements may name it: TACs a program, PTERMs an LTERM, users and LTERMs a key set.
fn may_be_named(said: &Said) -> bool
    ensures { result ≡ may_be_named said.now }
{
    matches!(
        said,
        Said::Program(_) | Said::Lterm(_, _) | Said::Kset(_, _)
    )
}

impl Gathered {
    /// No statements. Their names will be hashed by a key, which is to have all statements of the text in it.
    pub fn new(alloc: Global, key: &[u8]) -> Result<Gathered, OutOfMemory>
        ensures { IfOk result (λ gathered. WereGathered gathered []) }
    {
        Ok(Gathered {
            tables: Box::new(alloc, Tables::new(alloc, NameHashing::of(key)))?,
            tally: Tally::new(),
            first: None,
            kept: Vec::new(alloc),
        })
    }

    // Adds a statement with which there may be a fault for the first time.
    fn keep(&mut self, alloc: Global, statement: Statement) -> Result<(), OutOfMemory>
        requires gathered { IsGathered self.old }
        requires none { self.old.first ≡ None }
        ensures { OnOk result (OfGathered self.old (λ ss. WereGathered self.new (ss ++ statement ∷ []))) }
    {
        let count = self.tally.count(&statement.said);
        self.first = own_fault(&self.tables, count, &statement);
        know_name(&statement.said);
        self.tables.add(alloc, &statement)?;
        self.tally.add(&statement.said);
        self.kept.push(statement)?;
        Ok(())
    }

    // Adds the name of a statement behind the first fault, where others may name it.
    fn add_name(&mut self, alloc: Global, statement: &Statement) -> Result<(), OutOfMemory>
        requires { self.old.first ≡ None → ⊥ }
        ensures { OnOk result (OfGathered self.old (λ ss. IsBehind ss statement.now → WereGathered self.new (ss ++ statement.now ∷ []))) }
    {
        if !may_be_named(&statement.said) {
            return Ok(());
        }
        self.tables.add(alloc, statement)?;
        Ok(())
    }

    /// Adds the next statement.
    pub fn add(&mut self, alloc: Global, statement: Statement) -> Result<(), OutOfMemory>
        requires { IsGathered self.old }
        ensures { OnOk result (OfGathered self.old (λ ss. IsBehind ss statement → WereGathered self.new (ss ++ statement ∷ []))) }
    {
        if self.first.is_none() {
            self.keep(alloc, statement)
        } else {
            self.add_name(alloc, &statement)
        }
    }
}
