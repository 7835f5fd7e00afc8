//! Where a service goes at the end of a unit run.

use kd_base::Name;

/// What a PEND that is not refused does, with its follow-up TAC.
#[derive(Clone, Copy, PartialEq, Eq)]
pub enum Outcome {
    /// PR: the same task goes on, in the same transaction.
    Stay(Name),
    /// PA: to the back of the ready list, in the same transaction.
    Queue(Name),
    /// KP: the transaction stays open, and the follow-up reads the next input.
    Hold(Name),
    /// RE: a synchronisation point that awaits the next input.
    Wait(Name),
    /// SP: a synchronisation point, and to the back of the ready list.
    Point(Name),
    /// FI: a synchronisation point, and the service is over.
    Finish,
    /// FC: a synchronisation point, and a new service begins.
    Follow(Name),
    /// ER and FR: rolled back, and the service is over.
    Break,
    /// RS: rolled back to the last synchronisation point.
    Back,
}
