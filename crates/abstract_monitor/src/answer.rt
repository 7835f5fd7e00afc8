//! How a request for an area is answered, and what becomes of a KDCS call and of a statement.

use crate::outcome::Outcome;
use kd_base::{Name, Variant};
use kdcs_types::{Cause, Ending, Reply};

/// How a request for an area is answered.
#[derive(Clone, Copy, PartialEq, Eq)]
pub enum LockAnswer {
    /// The service holds the area.
    Granted,
    /// The request waits, and is repeated.
    Wait,
    /// The wait has lasted RESWAIT: K04.
    Busy,
    /// The wait would never end: K05.
    Deadlock,
}

/// What a KDCS call does, beside the change of its open transaction.
#[derive(Drop)]
pub enum Called {
    /// It is answered.
    Replied(Reply),
    /// Its request for an area waits. Nothing is done.
    Waits,
    /// The service ends abnormally.
    Abnormal(Cause),
    /// A PEND of this variant is not refused.
    Pends(Variant, Outcome),
}

/// What the next statement of a service does, beside the change of its open transaction.
#[derive(Clone, Copy, PartialEq, Eq)]
pub enum Happened {
    /// It is done, and the service goes on: a plain statement, an answered call, or PEND PR.
    Went,
    /// It is done, and the service goes to the back of the ready list: PEND PA.
    Queued,
    /// The service waits for the area of which the statement asks. Nothing is done.
    Waited,
    /// PEND KP: the service waits for an input, which this TAC reads. The statement is done when it comes.
    Held(Name),
    /// A synchronisation point with this outcome: PEND RE, SP, FI or FC.
    Settles(Outcome),
    /// The service ends abnormally, or by PEND ER or FR.
    Breaks(Ending),
    /// PEND RS: back to the last synchronisation point.
    Returns,
}
