//! Warnings of the statements of an accepted definition.

use crate::flow::Walk;
use crate::warned::Warnings;
use crate::warning::Warning;
use application_types::generation::Generation;
use application_types::kdcdef_types::{KeySet, Said, Statement, TacEntry};
use application_types::unit_types::Unit;
use application_types::units::Units;
use kd_base::{Name, OutOfMemory, ProgName};
use lab_check::lab_findings::TextName;
use std::alloc::Global;
use std::collections::BTreeSet;

/// What the statements of a definition name.
struct Used {
    /// The LTERMs that have a PTERM.
    lterms: BTreeSet<Name>,
    programs: BTreeSet<ProgName>,
    ksets: BTreeSet<Name>,
    classes: BTreeSet<u8>,
    /// The codes that a key set has.
    codes: BTreeSet<u16>,
    /// Whether a key set has all codes.
    has_master: bool,
}

impl Drop for Used {
    fn drop(self) {
        let Used {
            lterms,
            programs,
            ksets,
            classes,
            codes,
            has_master,
        } = self;
        drop(lterms);
        drop(programs);
        drop(ksets);
        drop(classes);
        drop(codes);
        let _ = has_master;
    }
}

/// What warnings of a statement look at.
#[derive(Clone, Copy)]
struct Whole<'a> {
    generation: &'a Generation,
    /// The units, where they fit.
    units: Option<&'a Units>,
    used: &'a Used,
}

impl Used {
    fn none(alloc: Global) -> Used {
        Used {
            lterms: BTreeSet::new(alloc),
            programs: BTreeSet::new(alloc),
            ksets: BTreeSet::new(alloc),
            classes: BTreeSet::new(alloc),
            codes: BTreeSet::new(alloc),
            has_master: false,
        }
    }

    fn add_kset(&mut self, kset: &Option<Name>) -> Result<(), OutOfMemory> {
        if let Some(name) = kset {
            self.ksets.insert(*name)?;
        }
        Ok(())
    }

    fn add_keys(&mut self, set: &KeySet) -> Result<(), OutOfMemory> {
        match set {
            KeySet::Master => self.has_master = true,
            KeySet::Codes(codes) => {
                for code in codes.as_slice() {
                    self.codes.insert(*code)?;
                }
            }
        }
        Ok(())
    }

    fn add_lterm(&mut self, name: Name) -> Result<(), OutOfMemory> {
        self.lterms.insert(name)?;
        Ok(())
    }

    fn add_tac(&mut self, entry: &TacEntry) -> Result<(), OutOfMemory> {
        self.programs.insert(entry.program)?;
        self.classes.insert(entry.class)?;
        Ok(())
    }

    // Adds what a statement names.
    fn add(&mut self, said: &Said) -> Result<(), OutOfMemory> {
        match said {
            Said::Pterm(_, entry) => self.add_lterm(entry.lterm),
            Said::Tac(_, entry) => self.add_tac(entry),
            Said::User(_, entry) => self.add_kset(&entry.kset),
            Said::Lterm(_, entry) => self.add_kset(&entry.kset),
            Said::Kset(_, set) => self.add_keys(set),
            _ => Ok(()),
        }
    }

    // Adds what statements name.
    fn add_all(&mut self, said: &[Statement]) -> Result<(), OutOfMemory> {
        for statement in said {
            self.add(&statement.said)?;
        }
        Ok(())
    }

    // Whether some key set has the code.
    fn has_code(&self, code: u16) -> bool {
        self.has_master || self.codes.contains(&code)
    }
}

// The statements of the run of a unit that ends first, if one ends.
fn shortest_run(alloc: Global, unit: &Unit) -> Result<Option<u32>, OutOfMemory> {
    let walk = Walk::whole(alloc, unit)?;
    Ok(walk.shortest(unit))
}

// Warns of a TAC from whose unit no PEND is reached, or not in its TIME.
fn run_warnings(
    alloc: Global,
    line: u32,
    name: &Name,
    entry: &TacEntry,
    unit: &Unit,
    warned: &mut Warnings,
) -> Result<(), OutOfMemory> {
    let text = TextName::Definition;
    let Some(count) = shortest_run(alloc, unit)? else {
        return warned.warn(
            alloc,
            text,
            line,
            Warning::NeverEnds,
            name.as_slice(),
            unit.name().as_slice(),
        );
    };
    if count <= entry.time {
        return Ok(());
    }
    let numbers = format!(in alloc; "TIME={} {count}", entry.time)?;
    warned.warn(
        alloc,
        text,
        line,
        Warning::TimeTooShort,
        name.as_slice(),
        numbers.as_bytes(),
    )
}

// Warns of a TAC for jobs that no task may work for.
fn job_warning(
    alloc: Global,
    whole: Whole,
    line: u32,
    name: &Name,
    entry: &TacEntry,
    warned: &mut Warnings,
) -> Result<(), OutOfMemory> {
    if !entry.asynchronous || whole.generation.max().asyntasks > 0 {
        return Ok(());
    }
    warned.warn(
        alloc,
        TextName::Definition,
        line,
        Warning::NoAsyntasks,
        name.as_slice(),
        b"ASYNTASKS=0 1..240",
    )
}

// Warns of a TAC whose code no key set has.
fn lock_warning(
    alloc: Global,
    whole: Whole,
    line: u32,
    name: &Name,
    entry: &TacEntry,
    warned: &mut Warnings,
) -> Result<(), OutOfMemory> {
    let Some(code) = entry.lock else {
        return Ok(());
    };
    if whole.used.has_code(code) {
        return Ok(());
    }
    let number = format!(in alloc; "LOCK={code}")?;
    warned.warn(
        alloc,
        TextName::Definition,
        line,
        Warning::LockWithoutKey,
        name.as_slice(),
        number.as_bytes(),
    )
}

fn tac_warnings(
    alloc: Global,
    whole: Whole,
    line: u32,
    name: &Name,
    entry: &TacEntry,
    warned: &mut Warnings,
) -> Result<(), OutOfMemory> {
    job_warning(alloc, whole, line, name, entry, warned)?;
    lock_warning(alloc, whole, line, name, entry, warned)?;
    let Some(units) = whole.units else {
        return Ok(());
    };
    match units.unit_of(*name) {
        Some(unit) => run_warnings(alloc, line, name, entry, unit, warned),
        None => Ok(()),
    }
}

// Warns of a class that no TAC has, or that has no tasks for its TACs.
fn class_warnings(
    alloc: Global,
    whole: Whole,
    line: u32,
    class: u8,
    tasks: u16,
    warned: &mut Warnings,
) -> Result<(), OutOfMemory> {
    let (warning, wrong): (Warning, &[u8]) = if !whole.used.classes.contains(&class) {
        (Warning::UnusedClass, b"")
    } else if tasks == 0 {
        (Warning::ClassNeverRuns, b"TASKS=0 1..240")
    } else {
        return Ok(());
    };
    let number = format!(in alloc; "{class}")?;
    warned.warn(
        alloc,
        TextName::Definition,
        line,
        warning,
        number.as_bytes(),
        wrong,
    )
}

// Warns of what a statement says.
fn statement_warnings(
    alloc: Global,
    whole: Whole,
    statement: &Statement,
    warned: &mut Warnings,
) -> Result<(), OutOfMemory> {
    let line = statement.line;
    let (warning, name) = match &statement.said {
        Said::Tac(name, entry) => return tac_warnings(alloc, whole, line, name, entry, warned),
        Said::TacClass(class, tasks) => {
            return class_warnings(alloc, whole, line, *class, *tasks, warned);
        }
        Said::Lterm(name, _) if !whole.used.lterms.contains(name) => {
            (Warning::NoPterm, name.as_slice())
        }
        Said::Program(name) if !whole.used.programs.contains(name) => {
            (Warning::UnusedProgram, name.as_slice())
        }
        Said::Kset(name, _) if !whole.used.ksets.contains(name) => {
            (Warning::UnusedKset, name.as_slice())
        }
        _ => return Ok(()),
    };
    warned.warn(alloc, TextName::Definition, line, warning, name, b"")
}

/// Warns of what the statements of an accepted definition say together, and with the units where they fit.
pub(crate) fn generation_warnings(
    alloc: Global,
    generation: &Generation,
    units: Option<&Units>,
    said: &[Statement],
    warned: &mut Warnings,
) -> Result<(), OutOfMemory> {
    let mut used = Used::none(alloc);
    used.add_all(said)?;
    let whole = Whole {
        generation,
        units,
        used: &used,
    };
    all_warnings(alloc, whole, said, warned)
}

fn all_warnings(
    alloc: Global,
    whole: Whole,
    said: &[Statement],
    warned: &mut Warnings,
) -> Result<(), OutOfMemory> {
    for statement in said {
        statement_warnings(alloc, whole, statement, warned)?;
    }
    Ok(())
}
