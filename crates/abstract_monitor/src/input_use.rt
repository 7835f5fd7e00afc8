//! What a terminal input means.

use crate::access::Denial;
use kd_base::{Bytes, Name};

/// Why a KDCSIGN is refused.
#[derive(Clone, Copy, PartialEq, Eq)]
pub enum SignFault {
    /// No user name is after it.
    BadForm,
    UnknownUser,
    WrongPassword,
    /// The user is signed on elsewhere.
    InUse,
}

/// Why no service starts with a TAC.
#[derive(Clone, Copy, PartialEq, Eq)]
pub enum TacFault {
    UnknownTac,
    /// TYPE=A or CALL=NEXT.
    NotAllowed,
    /// STATUS=OFF.
    IsOff,
    /// The TAC has a lock, and the user or the LTERM has no key for it.
    Denied(Denial),
}

/// What the dialogue service of a signed-on user does.
#[derive(Clone, Copy, PartialEq, Eq)]
pub enum ServiceState {
    NoService,
    /// It awaits an input.
    Awaits,
    /// It is ready or in a task.
    Running,
}

/// The use of an input.
#[derive(Drop)]
pub enum Use {
    /// KDCSIGN: this user signs on.
    Sign(Name),
    SignRefused(SignFault),
    /// Nobody is signed on, and this is no KDCSIGN.
    SignFirst,
    AlreadySigned,
    /// KDCOFF.
    Off,
    /// KDCDISP.
    Display,
    /// KDCOUT.
    Output,
    /// KDCLAST.
    Again,
    /// A service of the user is ready or in a task.
    Busy,
    /// The input is longer than NB.
    TooLong,
    /// The input that the service awaits.
    Next(Bytes),
    /// A service starts with this TAC and this message.
    Start(Name, Bytes),
    TacRefused(TacFault),
}
