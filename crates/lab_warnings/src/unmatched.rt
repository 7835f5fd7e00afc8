//! Areas that units write and none reads, or read and none writes.

use crate::areas::{Doing, Use, area_words, fixed, use_of};
use crate::targets::{Names, undeclared};
use crate::warned::Warnings;
use crate::warning::Warning;
use application_types::generation::Generation;
use application_types::unit_types::{Action, Unit};
use application_types::units::Units;
use kd_base::{Bytes, OutOfMemory};
use lab_check::lab_findings::TextName;
use std::alloc::Global;
use std::collections::BTreeSet;

/// The areas that units read and write, as they are printed; the word of a kind alone where a name is said by no text.
struct Areas {
    read: Names,
    written: Names,
    /// Those that were warned of.
    told: Names,
}

impl Drop for Areas {
    fn drop(self) {
        let Areas {
            read,
            written,
            told,
        } = self;
        drop(read);
        drop(written);
        drop(told);
    }
}

// The word of an area's kind, and its name where texts say it.
fn key_of(alloc: Global, used: Use) -> Result<Bytes, OutOfMemory> {
    match fixed(used.name) {
        Some(_) => area_words(alloc, used),
        None => Bytes::from_slice(alloc, used.kind.word().as_bytes()),
    }
}

// Whether the area is one of these, or some name of its kind is said by no text.
fn has_area(alloc: Global, areas: &Names, used: Use, words: &Bytes) -> Result<bool, OutOfMemory> {
    let kind = Bytes::from_slice(alloc, used.kind.word().as_bytes())?;
    Ok(areas.contains(words) || areas.contains(&kind))
}

impl Areas {
    // Adds the area that a statement reads or writes.
    fn add(&mut self, alloc: Global, action: &Action) -> Result<(), OutOfMemory> {
        let Some(used) = use_of(action) else {
            return Ok(());
        };
        let names = match used.doing {
            Doing::Reads => &mut self.read,
            Doing::Writes => &mut self.written,
            Doing::Deletes | Doing::Frees => return Ok(()),
        };
        names.insert(key_of(alloc, used)?)?;
        Ok(())
    }

    fn none(alloc: Global) -> Areas {
        Areas {
            read: BTreeSet::new(alloc),
            written: BTreeSet::new(alloc),
            told: BTreeSet::new(alloc),
        }
    }

    // Adds the areas that units read or write.
    fn add_all(&mut self, alloc: Global, units: &Units) -> Result<(), OutOfMemory> {
        for unit in units.all() {
            for statement in unit.statements() {
                self.add(alloc, &statement.action)?;
            }
        }
        Ok(())
    }

    // What to warn of at a use: a write of what is never read, or a read of what is never written.
    fn warning_of(
        &self,
        alloc: Global,
        used: Use,
        words: &Bytes,
    ) -> Result<Option<Warning>, OutOfMemory> {
        let (others, warning) = match used.doing {
            Doing::Reads => (&self.written, Warning::NeverWritten),
            Doing::Writes => (&self.read, Warning::NeverRead),
            Doing::Deletes | Doing::Frees => return Ok(None),
        };
        if has_area(alloc, others, used, words)? {
            return Ok(None);
        }
        Ok(Some(warning))
    }

    // Warns of the area of a statement at this line, once.
    fn warn(
        &mut self,
        alloc: Global,
        line: u32,
        action: &Action,
        warned: &mut Warnings,
    ) -> Result<(), OutOfMemory> {
        let Some(used) = use_of(action) else {
            return Ok(());
        };
        if fixed(used.name).is_none() {
            return Ok(());
        }
        let words = area_words(alloc, used)?;
        match self.warning_of(alloc, used, &words)? {
            Some(warning) if !self.told.contains(&words) => {
                warned.warn(alloc, TextName::Units, line, warning, words.as_slice(), b"")?;
                self.told.insert(words)?;
                Ok(())
            }
            _ => Ok(()),
        }
    }

    // Warns of the areas of a unit's statements, but for blocks that are not declared.
    fn warn_of(
        &mut self,
        alloc: Global,
        generation: &Generation,
        unit: &Unit,
        warned: &mut Warnings,
    ) -> Result<(), OutOfMemory> {
        for statement in unit.statements() {
            if undeclared(generation, &statement.action).is_none() {
                self.warn(alloc, statement.line, &statement.action, warned)?;
            }
        }
        Ok(())
    }

    fn warn_of_all(
        &mut self,
        alloc: Global,
        generation: &Generation,
        units: &Units,
        warned: &mut Warnings,
    ) -> Result<(), OutOfMemory> {
        for unit in units.all() {
            self.warn_of(alloc, generation, unit, warned)?;
        }
        Ok(())
    }
}

/// Warns of areas that units write and none reads, or read and none writes, each where it is asked for first.
pub(crate) fn unmatched_warnings(
    alloc: Global,
    generation: &Generation,
    units: &Units,
    warned: &mut Warnings,
) -> Result<(), OutOfMemory> {
    let mut areas = Areas::none(alloc);
    areas.add_all(alloc, units)?;
    areas.warn_of_all(alloc, generation, units, warned)
}
