//! In which services a unit runs.

use crate::areas::fixed;
use application_types::generation::Generation;
use application_types::unit_types::{Action, Unit};
use application_types::units::Units;
use kd_base::{Name, OutOfMemory, Variant};
use std::alloc::Global;
use std::collections::BTreeSet;

/// In which services a unit runs, by the TACs that name its program.
#[derive(Clone, Copy)]
pub(crate) struct Role {
    has_dialogue: bool,
    has_jobs: bool,
    /// Whether a run of it may go on with a transaction that another one began.
    pub goes_on: bool,
}

impl Role {
    /// Whether it runs in dialogue services alone.
    pub fn is_dialogue(&self) -> bool {
        self.has_dialogue && !self.has_jobs
    }

    /// Whether it runs in asynchronous services alone.
    pub fn is_job(&self) -> bool {
        self.has_jobs && !self.has_dialogue
    }
}

/// The TACs with which a transaction may go on.
pub(crate) struct Continued {
    tacs: BTreeSet<Name>,
    /// Whether a PEND names one by another operand than a literal.
    is_open: bool,
}

impl Drop for Continued {
    fn drop(self) {
        let Continued { tacs, is_open } = self;
        let _ = tacs;
        let _ = is_open;
    }
}

impl Continued {
    // Adds what a statement goes on with.
    fn add(&mut self, action: &Action) -> Result<(), OutOfMemory> {
        let Action::Pend(Variant::Kp | Variant::Pr | Variant::Pa, Some(operand)) = action else {
            return Ok(());
        };
        match fixed(operand) {
            Some(bytes) => {
                if let Some(name) = Name::from_bytes(bytes) {
                    self.tacs.insert(name)?;
                }
            }
            None => self.is_open = true,
        }
        Ok(())
    }

    pub fn none(alloc: Global) -> Continued {
        Continued {
            tacs: BTreeSet::new(alloc),
            is_open: false,
        }
    }

    /// Adds those that the units go on with.
    pub fn add_all(&mut self, units: &Units) -> Result<(), OutOfMemory> {
        for unit in units.all() {
            for statement in unit.statements() {
                self.add(&statement.action)?;
            }
        }
        Ok(())
    }
}

/// In which services a unit runs.
pub(crate) fn role_of(generation: &Generation, continued: &Continued, unit: &Unit) -> Role {
    let mut role = Role {
        has_dialogue: false,
        has_jobs: false,
        goes_on: false,
    };
    let tacs = generation.tacs();
    for i in 0..tacs.len() {
        if let Some((name, entry)) = tacs.get_index(i) {
            if entry.program == *unit.name() {
                role.has_dialogue |= !entry.asynchronous;
                role.has_jobs |= entry.asynchronous;
                role.goes_on |= continued.is_open || continued.tacs.contains(name);
            }
        }
    }
    role
}
