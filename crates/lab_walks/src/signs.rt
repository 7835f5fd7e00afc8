//! What is worth a look in a walk.

/// The signs by which an outcome is marked.
#[derive(Clone, Copy, Debug, PartialEq, Eq)]
pub struct Signs {
    /// A request was refused with K04.
    pub k04: bool,
    /// A request was refused with K05.
    pub k05: bool,
    /// A transaction ended with a dump.
    pub dump: bool,
    /// At the end a service waits, and no task's turn has an effect.
    pub standstill: bool,
    /// A RUN ended while a task's turn had an effect.
    pub spent: bool,
}
