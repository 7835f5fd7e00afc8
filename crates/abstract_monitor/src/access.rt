//! Who may start what.

/// Why a user may not start a service at a terminal: whose key set lacks the code of the TAC's lock. A code is from 1 to
/// 4000.
#[derive(Clone, Copy, PartialEq, Eq)]
pub enum Denial {
    /// The user's.
    User(u16),
    /// That of the terminal's LTERM, where the user has the code.
    Lterm(u16),
}
