//! The words of KDCS calls that several crates share.

/// How a PEND ends a program unit run: its variant.
#[derive(Clone, Copy, PartialEq, Eq)]
pub enum Variant {
    /// The transaction stays open over the next input, which the follow-up unit reads.
    Kp,
    /// The follow-up unit runs in the same transaction, by the same task.
    Pr,
    /// The follow-up unit runs in the same transaction, by any task.
    Pa,
    /// A synchronisation point; the follow-up unit reads the next input.
    Re,
    /// A synchronisation point, and then the follow-up unit.
    Sp,
    /// A synchronisation point, and the end of the service.
    Fi,
    /// A synchronisation point, the end of the service, and a new one that begins with the follow-up unit.
    Fc,
    /// Rolled back, and the end of the service, with no dump.
    Fr,
    /// Rolled back, and the end of the service, with a dump.
    Er,
    /// Rolled back to the last synchronisation point.
    Rs,
}

/// Whether a DPUT names a moment from now on, or one of the clock.
#[derive(Clone, Copy, PartialEq, Eq)]
pub enum Mode {
    Relative,
    Absolute,
}
