//! A generation: what the statements of a KDCDEF text say together, as the monitor asks it.
//!
//! Its contract says that a generation answers for each name what its statement says, and which ranges the numbers of every
//! generation keep. It is made of parts that keep them, as the check of the statements finds them.
ghost use Rattle.std.specs.{Prelude.{◌≡◌, ◌≤◌, IfOk, IfSome}, Option.{option_copied}};
ghost use Rattle.application_types.specs.Statements.{IsTacInRange, IsUserInRange};
ghost use Rattle.application_types.specs.Generation.{tac_of, user_of, pterm_of, lterm_of, has_tls, has_uls, class_limit, lock_of, keys_named, user_keys, lterm_keys};
ghost use Rattle.application_types.specs.{Soundness.{AreLimits, IsSound}, Tables.{generated_of}};

mod hashing;
mod keys;

use crate::kdcdef_types::{Counts, KeySet, Limits, LtermEntry, PtermEntry, TacEntry, UserEntry};
pub use hashing::NameHashing;
use indexmap::{IndexMap, IndexSet};
use kd_base::{Name, OutOfMemory, ProgName};
pub use keys::Keys;
use std::alloc::Global;
use std::marker::Model;

/// The parts of a generation: its limits, its tables in the order of their statements, its counts, and the line of the
/// statement that says DOUBLE.
pub struct GenerationParts {
    pub limits: Limits,
    pub programs: IndexMap<ProgName, u32, NameHashing>,
    pub tacs: IndexMap<Name, TacEntry, NameHashing>,
    pub users: IndexMap<Name, UserEntry, NameHashing>,
    pub pterms: IndexMap<Name, PtermEntry, NameHashing>,
    pub lterms: IndexMap<Name, LtermEntry, NameHashing>,
    pub tls: IndexSet<Name, NameHashing>,
    pub uls: IndexSet<Name, NameHashing>,
    pub classes: IndexMap<u8, u16, NameHashing>,
    pub ksets: IndexMap<Name, KeySet, NameHashing>,
    pub counts: Counts,
    pub double: Option<u32>,
}

impl Drop for GenerationParts {
    fn drop(self) {
        let GenerationParts {
            limits,
            programs,
            tacs,
            users,
            pterms,
            lterms,
            tls,
            uls,
            classes,
            ksets,
            counts,
            double,
        } = self;
        let _ = limits;
        drop(programs);
        drop(tacs);
        drop(users);
        drop(pterms);
        drop(lterms);
        drop(tls);
        drop(uls);
        drop(classes);
        drop(ksets);
        let _ = counts;
        let _ = double;
    }
}

/// What the statements of a KDCDEF text generate. Contracts see its limits, its tables in the order of their statements,
/// its counts, and the line of DOUBLE. No call of it takes memory. It is handed from owner to owner, so its parts are in a
/// box.
pub struct Generation {
    parts: Box<GenerationParts, Global>,
}

impl Drop for Generation {
    fn drop(self) {
        let Generation { parts } = self;
        let _ = parts;
    }
}

impl Model for Generation {
    ghost use Rattle.application_types.specs.{Generation.{Generated}, Tables.{generated_of, AreSoundParts}};

    ghost Value = { Generated };

    ghost view = { λ g. generated_of g.parts.value };

    ghost invariant = { λ g. AreSoundParts g.parts.value };
}

impl Generation {
    /// The generation of these parts, which keep what every generation keeps.
    pub fn of(alloc: Global, parts: GenerationParts) -> Result<Generation, OutOfMemory>
        requires { IsSound (generated_of parts) }
        ensures { IfOk result (λ generation. generation ≡ generated_of parts) }
    {
        Ok(Generation {
            parts: Box::new(alloc, parts)?,
        })
    }

    /// The numbers of the MAX statements.
    pub fn max(&self) -> &Limits
        ensures limits { result.now ≡ self.now.limits }
        ensures ranges { AreLimits result.now }
        ensures sound { IsSound self.now }
    {
        &self.parts.limits
    }

    /// What the TAC statement of this name says, if there is one.
    pub fn tac(&self, name: Name) -> Option<&TacEntry>
        ensures entry { option_copied result ≡ tac_of self.now name }
        ensures ranges { IfSome result (λ e. IsTacInRange e.now) }
    {
        self.parts.tacs.get(&name)
    }

    /// What the USER statement of this name says, if there is one.
    pub fn user(&self, name: Name) -> Option<&UserEntry>
        ensures entry { option_copied result ≡ user_of self.now name }
        ensures ranges { IfSome result (λ e. IsUserInRange e.now) }
    {
        self.parts.users.get(&name)
    }

    /// What the PTERM statement of this name says, if there is one that names an LTERM.
    pub fn pterm(&self, name: Name) -> Option<&PtermEntry>
        ensures { option_copied result ≡ pterm_of self.now name }
    {
        self.parts.pterms.get(&name)
    }

    /// What the LTERM statement of this name says, if there is one.
    pub fn lterm(&self, name: Name) -> Option<&LtermEntry>
        ensures { option_copied result ≡ lterm_of self.now name }
    {
        self.parts.lterms.get(&name)
    }

    /// Whether a TLS statement names this block.
    pub fn has_tls(&self, name: Name) -> bool
        ensures { result ≡ has_tls self.now name }
    {
        self.parts.tls.contains(&name)
    }

    /// Whether a ULS statement names this block.
    pub fn has_uls(&self, name: Name) -> bool
        ensures { result ≡ has_uls self.now name }
    {
        self.parts.uls.contains(&name)
    }

    /// How many tasks may work for a TAC class, from 0 to 240, if a TACCLASS statement says so.
    pub fn class_limit(&self, class: u8) -> Option<u16>
        ensures limit { result ≡ class_limit self.now class }
        ensures ranges { IfSome result (λ tasks. tasks ≤ 240) }
    {
        self.parts.classes.get(&class).copied()
    }

    /// The code that a user and an LTERM must have to start a service by this TAC, if it has a lock.
    pub fn lock_of(&self, tac: Name) -> Option<u16>
        ensures { result ≡ lock_of self.now tac }
    {
        match self.parts.tacs.get(&tac) {
            Some(entry) => entry.lock,
            None => None,
        }
    }

    // The codes of the KSET statement of this name, where there is a name.
    fn keys_named(&self, name: &Option<Name>) -> Keys<'_>
        ensures { result ≡ keys_named self.now name.now }
    {
        match name {
            Some(name) => Keys::of(self.parts.ksets.get(name)),
            None => Keys::of(None),
        }
    }

    /// The codes that a user has.
    pub fn user_keys(&self, user: Name) -> Keys<'_>
        ensures { result ≡ user_keys self.now user }
    {
        match self.parts.users.get(&user) {
            Some(entry) => self.keys_named(&entry.kset),
            None => Keys::of(None),
        }
    }

    /// The codes that an LTERM has.
    pub fn lterm_keys(&self, lterm: Name) -> Keys<'_>
        ensures { result ≡ lterm_keys self.now lterm }
    {
        match self.parts.lterms.get(&lterm) {
            Some(entry) => self.keys_named(&entry.kset),
            None => Keys::of(None),
        }
    }

    /// The program units, in the order of their statements, each with the line of its statement.
    pub fn programs(&self) -> &IndexMap<ProgName, u32, NameHashing>
        ensures { result.now.entries ≡ self.now.programs }
    {
        &self.parts.programs
    }

    /// The TACs, in the order of their statements.
    pub fn tacs(&self) -> &IndexMap<Name, TacEntry, NameHashing>
        ensures { result.now.entries ≡ self.now.tacs }
    {
        &self.parts.tacs
    }

    /// How many statements of a kind there are, and what was passed over.
    pub fn counts(&self) -> Counts
        ensures { result ≡ self.now.counts }
    {
        self.parts.counts
    }

    /// The line of the MAX statement that says DOUBLE, where the KDCFILE has two copies. It takes no memory.
    pub fn double(&self) -> Option<u32>
        ensures { result ≡ self.now.double }
    {
        self.parts.double
    }
}
