//! The tables of names, filled from the statements.
ghost use Rattle.std.specs.Prelude.{◌≡◌, [], OnOk, IfOk};
ghost use Rattle.application_types.specs.{Generation.{Generated}, Tables.{generated_of}};
ghost use Rattle.application_check.specs.{Faults.{is_taken, shares_lterm, lacks_program, lacks_lterm, lacks_keys, lacks_kset}, Steps.{IsAdded, AreFilled, HaveNames, HaveNamed, made_of}};

use application_types::generation::{GenerationParts, NameHashing};
use application_types::kdcdef_types::{
    Codes, Counts, KeySet, Limits, LtermEntry, PtermEntry, Said, Statement, TacEntry, UserEntry,
};
use indexmap::{IndexMap, IndexSet};
use kd_base::{Name, OutOfMemory, ProgName};
use std::alloc::Global;

/// What the statements name, in their order. Of two equal names the first keeps its place.
pub(crate) struct Tables {
    pub(crate) programs: IndexMap<ProgName, u32, NameHashing>,
    pub(crate) tacs: IndexMap<Name, TacEntry, NameHashing>,
    pub(crate) users: IndexMap<Name, UserEntry, NameHashing>,
    pub(crate) pterms: IndexMap<Name, PtermEntry, NameHashing>,
    pub(crate) lterms: IndexMap<Name, LtermEntry, NameHashing>,
    pub(crate) tls: IndexSet<Name, NameHashing>,
    pub(crate) uls: IndexSet<Name, NameHashing>,
    pub(crate) classes: IndexMap<u8, u16, NameHashing>,
    pub(crate) ksets: IndexMap<Name, KeySet, NameHashing>,
    /// The LTERMs that have a PTERM.
    pub(crate) served: IndexSet<Name, NameHashing>,
}

impl Drop for Tables {
    fn drop(self) {
        let Tables {
            programs,
            tacs,
            users,
            pterms,
            lterms,
            tls,
            uls,
            classes,
            ksets,
            served,
        } = self;
        drop(programs);
        drop(tacs);
        drop(users);
        drop(pterms);
        drop(lterms);
        drop(tls);
        drop(uls);
        drop(classes);
        drop(ksets);
        drop(served);
    }
}

fn copy_of(entry: &UserEntry) -> Result<UserEntry, OutOfMemory>
    ensures { IfOk result (λ copy. copy ≡ entry.now) }
{
    let pass = match &entry.pass {
        Some(bytes) => Some(bytes.clone()?),
        None => None,
    };
    Ok(UserEntry {
        pass,
        restart: entry.restart,
        kset: entry.kset,
    })
}

fn copy_of_keys(alloc: Global, set: &KeySet) -> Result<KeySet, OutOfMemory>
    ensures { IfOk result (λ copy. copy ≡ set.now) }
{
    match set {
        KeySet::Master => Ok(KeySet::Master),
        KeySet::Codes(codes) => {
            let copy = Vec::from_slice(alloc, codes.as_slice())?;
            Ok(KeySet::Codes(Codes::from_vec(copy)))
        }
    }
}

impl Tables {
    pub(crate) fn new(alloc: Global, hashing: NameHashing) -> Tables
        ensures { AreFilled result [] }
    {
        Tables {
            programs: IndexMap::with_hasher(alloc, hashing),
            tacs: IndexMap::with_hasher(alloc, hashing),
            users: IndexMap::with_hasher(alloc, hashing),
            pterms: IndexMap::with_hasher(alloc, hashing),
            lterms: IndexMap::with_hasher(alloc, hashing),
            tls: IndexSet::with_hasher(alloc, hashing),
            uls: IndexSet::with_hasher(alloc, hashing),
            classes: IndexMap::with_hasher(alloc, hashing),
            ksets: IndexMap::with_hasher(alloc, hashing),
            served: IndexSet::with_hasher(alloc, hashing),
        }
    }

    /// The parts of a generation with these tables, and with these limits, counts and line of DOUBLE.
    pub(crate) fn into_parts(
        self,
        limits: Limits,
        counts: Counts,
        double: Option<u32>,
    ) -> GenerationParts
        ensures { generated_of result ≡ made_of self limits counts double }
    {
        let Tables {
            programs,
            tacs,
            users,
            pterms,
            lterms,
            tls,
            uls,
            classes,
            ksets,
            served,
        } = self;
        drop(served);
        GenerationParts {
            limits,
            programs,
            tacs,
            users,
            pterms,
            lterms,
            tls,
            uls,
            classes,
            ksets,
            counts,
            double,
        }
    }

    /// Adds what a statement names.
    pub(crate) fn add(&mut self, alloc: Global, statement: &Statement) -> Result<(), OutOfMemory>
        ensures { OnOk result (IsAdded self.old self.new statement.now.line statement.now.said) }
    {
        match &statement.said {
            Said::Program(name) => {
                let _before = self.programs.insert(*name, statement.line)?;
            }
            Said::Tac(name, entry) => {
                let _before = self.tacs.insert(*name, *entry)?;
            }
            Said::User(name, entry) => {
                let _before = self.users.insert(*name, copy_of(entry)?)?;
            }
            Said::Pterm(name, entry) => {
                let _before = self.pterms.insert(*name, *entry)?;
                let _is_new = self.served.insert(entry.lterm)?;
            }
            Said::Lterm(name, entry) => {
                let _before = self.lterms.insert(*name, *entry)?;
            }
            Said::Tls(name) => {
                let _is_new = self.tls.insert(*name)?;
            }
            Said::Uls(name) => {
                let _is_new = self.uls.insert(*name)?;
            }
            Said::TacClass(class, tasks) => {
                let _before = self.classes.insert(*class, *tasks)?;
            }
            Said::Kset(name, set) => {
                let _before = self.ksets.insert(*name, copy_of_keys(alloc, set)?)?;
            }
            Said::Max(_) | Said::Passed | Said::End => {}
        }
        Ok(())
    }

    /// Whether the name of the statement is in its table already; TACs and LTERMs share their names.
    pub(crate) fn is_taken(&self, said: &Said) -> bool
        ensures { (g : Generated) → HaveNames self.now g → result ≡ is_taken g said.now }
    {
        match said {
            Said::Program(name) => self.programs.contains_key(name),
            Said::Tac(name, _) => self.tacs.contains_key(name) || self.lterms.contains_key(name),
            Said::User(name, _) => self.users.contains_key(name),
            Said::Pterm(name, _) => self.pterms.contains_key(name),
            Said::Lterm(name, _) => self.lterms.contains_key(name) || self.tacs.contains_key(name),
            Said::Tls(name) => self.tls.contains(name),
            Said::Uls(name) => self.uls.contains(name),
            Said::TacClass(class, _) => self.classes.contains_key(class),
            Said::Kset(name, _) => self.ksets.contains_key(name),
            Said::Max(_) | Said::Passed | Said::End => false,
        }
    }

    /// Whether the statement is a PTERM whose LTERM has one already.
    pub(crate) fn shares_lterm(&self, said: &Said) -> bool
        ensures { (g : Generated) → HaveNames self.now g → result ≡ shares_lterm g said.now }
    {
        match said {
            Said::Pterm(_, entry) => self.served.contains(&entry.lterm),
            _ => false,
        }
    }

    /// Whether the statement is a TAC that names no PROGRAM.
    pub(crate) fn lacks_program(&self, said: &Said) -> bool
        ensures { (g : Generated) → HaveNamed self.now g → result ≡ lacks_program g said.now }
    {
        match said {
            Said::Tac(_, entry) => !self.programs.contains_key(&entry.program),
            _ => false,
        }
    }

    /// Whether the statement is a PTERM that names no LTERM.
    pub(crate) fn lacks_lterm(&self, said: &Said) -> bool
        ensures { (g : Generated) → HaveNamed self.now g → result ≡ lacks_lterm g said.now }
    {
        match said {
            Said::Pterm(_, entry) => !self.lterms.contains_key(&entry.lterm),
            _ => false,
        }
    }

    // Whether there is a name, and no KSET has it.
    fn lacks_keys(&self, name: &Option<Name>) -> bool
        ensures { (g : Generated) → HaveNamed self.now g → result ≡ lacks_keys g name.now }
    {
        match name {
            Some(name) => !self.ksets.contains_key(name),
            None => false,
        }
    }

    /// Whether the statement is a USER or an LTERM that names no KSET.
    pub(crate) fn lacks_kset(&self, said: &Said) -> bool
        ensures { (g : Generated) → HaveNamed self.now g → result ≡ lacks_kset g said.now }
    {
        match said {
            Said::User(_, entry) => self.lacks_keys(&entry.kset),
            Said::Lterm(_, entry) => self.lacks_keys(&entry.kset),
            _ => false,
        }
    }
}
