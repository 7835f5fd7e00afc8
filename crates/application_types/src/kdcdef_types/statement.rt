//! Typed statements, in the order of the text.

use crate::kdcdef_types::entry::{KeySet, LtermEntry, PtermEntry, TacEntry, UserEntry};
use kd_base::{Name, ProgName};

/// What one MAX statement gives; `None` where it does not give the operand. The ranges are those of `Limits`.
#[derive(Clone, Copy)]
pub struct MaxOperands {
    pub appliname: Option<Name>,
    pub tasks: Option<u16>,
    pub asyntasks: Option<u16>,
    pub gssbs: Option<u32>,
    pub lssbs: Option<u32>,
    pub kb: Option<u32>,
    pub spab: Option<u32>,
    pub nb: Option<u32>,
    pub pgpool: Option<u32>,
    pub reswait: Option<u64>,
    pub blksize: Option<u32>,
    pub redelivery: Option<u8>,
    /// KDCFILE: whether there are two copies of the file, DOUBLE.
    pub double: Option<bool>,
}

/// What a statement says.
#[derive(Drop)]
pub enum Said {
    Max(MaxOperands),
    Program(ProgName),
    Tac(Name, TacEntry),
    User(Name, UserEntry),
    Pterm(Name, PtermEntry),
    Lterm(Name, LtermEntry),
    /// A block of terminal-specific storage that each LTERM has.
    Tls(Name),
    /// A block of user-specific storage that each user has.
    Uls(Name),
    /// A TAC class from 1 to 16, and how many tasks may work for it, from 0 to 240.
    TacClass(u8, u16),
    /// A key set, that users and LTERMs may have.
    Kset(Name, KeySet),
    /// A statement that is read and not kept.
    Passed,
    End,
}

/// A statement, with the number of its first line, counted from 1.
pub struct Statement {
    pub line: u32,
    /// How many of its operands are read and not kept.
    pub passed: u32,
    pub said: Said,
}

impl Drop for Statement {
    fn drop(self) {
        let Statement { line, passed, said } = self;
        let _ = line;
        let _ = passed;
        let _ = said;
    }
}
