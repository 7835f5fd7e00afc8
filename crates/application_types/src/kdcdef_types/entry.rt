//! What a generation says of its TACs, users and terminals.

use kd_base::{Bytes, Name, ProgName, Sequence};

/// Where in a service a TAC may be: the operand CALL.
#[derive(Clone, Copy, PartialEq, Eq)]
pub enum CallUse {
    /// At the beginning and as a follow-up.
    Both,
    /// At the beginning alone.
    First,
    /// As a follow-up alone.
    Next,
}

/// A TAC statement, its defaults filled in.
#[derive(Clone, Copy)]
pub struct TacEntry {
    /// The program unit that runs.
    pub program: ProgName,
    /// TYPE=A; a dialogue TAC has TYPE=D.
    pub asynchronous: bool,
    pub call: CallUse,
    /// STATUS=ON.
    pub on: bool,
    /// TACCLASS: 1 to 16, and 0 for none.
    pub class: u8,
    /// TIME: the greatest number of statements of a unit run, from 1 to 100,000.
    pub time: u32,
    /// LOCK: the code from 1 to 4,000 that a user and an LTERM must have to start it, if there is a lock.
    pub lock: Option<u16>,
}

/// Codes of keys, in the order of their statement.
pub type Codes = Sequence<u16>;

/// KEYS: the codes that a key set has.
#[derive(Drop)]
pub enum KeySet {
    /// MASTER: all codes.
    Master,
    /// One code or more, each from 1 to 4,000.
    Codes(Codes),
}

/// A USER statement, its defaults filled in.
pub struct UserEntry {
    /// PASS: 1 to 16 bytes, if there is a password.
    pub pass: Option<Bytes>,
    /// RESTART=YES.
    pub restart: bool,
    /// KSET: the key set that the user has; without one, the user has no code.
    pub kset: Option<Name>,
}

impl Drop for UserEntry {
    fn drop(self) {
        let UserEntry {
            pass,
            restart,
            kset,
        } = self;
        let _ = pass;
        let _ = restart;
        let _ = kset;
    }
}

/// A PTERM statement.
#[derive(Clone, Copy)]
pub struct PtermEntry {
    /// The LTERM that the terminal works as.
    pub lterm: Name,
}

/// An LTERM statement, its defaults filled in.
#[derive(Clone, Copy)]
pub struct LtermEntry {
    /// USAGE=O, an output medium; a dialogue terminal has USAGE=D.
    pub printer: bool,
    /// KSET: the key set that the LTERM has; without one, the LTERM has no code.
    pub kset: Option<Name>,
}
