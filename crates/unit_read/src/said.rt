//! A statement as it was read.
ghost use Rattle.std.specs.Prelude.{◌≡◌, [], ◌∷◌, ◌++◌, IfOk, OnOk};

use application_types::unit_types::{Action, UnitStatement};
use kd_base::OutOfMemory;
use std::alloc::Global;
use std::marker::Model;

/// What a statement does. Contracts see the action.
#[derive(Drop)]
pub(crate) struct Said {
    action: Box<Action, Global>,
}

impl Model for Said {
    ghost use Rattle.application_types.specs.declared.unit_types.action.Action.{Action};

    ghost Value = { Action };

    ghost view = { λ s. s.action.value };
}

impl Said {
    pub(crate) fn new(alloc: Global, action: Action) -> Result<Said, OutOfMemory>
        ensures { IfOk result (λ said. said ≡ action) }
    {
        Ok(Said {
            action: Box::new(alloc, action)?,
        })
    }

    pub(crate) fn action(&self) -> &Action
        ensures { result.now ≡ self.now }
    {
        &self.action
    }

    /// Adds the statement, which stands on this line, at the end, or changes nothing.
    pub(crate) fn add_to(
        self,
        statements: &mut Vec<UnitStatement>,
        line: u32,
    ) -> Result<(), OutOfMemory>
        ensures { OnOk result (statements.new.items ≡ statements.old.items ++ record { line = line; action = self } ∷ []) }
    {
        let action = Box::into_inner(self.action);
        Ok(statements.push(UnitStatement { line, action })?)
    }
}
