//! Who is signed on.
ghost use Rattle.std.specs.Prelude.{◌≡◌, IfOk};

use crate::same::Same;
use kd_base::{Bytes, Name, OutOfMemory, Sequence};
use monitor_parts::session_table::Sessions;
use std::alloc::Global;
use std::marker::Model;

/// A user who is signed on, and the last dialogue message of this session.
#[derive(Drop)]
pub(crate) struct SignedOn {
    user: Name,
    last: Option<Bytes>,
}

impl Model for SignedOn {
    ghost use Rattle.abstract_monitor.specs.State.{Session};

    ghost Value = { Session };

    ghost view = { λ s. record { user = s.user; last = s.last } };
}

impl Same for SignedOn {
    fn is_same(&self, other: &SignedOn) -> bool {
        self.user == other.user && self.last.is_same(&other.last)
    }
}

/// All sessions, by their PTERMs.
pub(crate) fn signed_in(
    alloc: Global,
    sessions: &Sessions,
) -> Result<Sequence<(Name, SignedOn)>, OutOfMemory>
    ensures { IfOk result (λ signed. signed ≡ sessions.now) }
{
    let mut signed = Sequence::new(alloc);
    for (pterm, session) in sessions.iter() {
        let user = session.user();
        let last = match session.last() {
            Some(message) => Some(message.clone()?),
            None => None,
        };
        signed.push((*pterm, SignedOn { user, last }))?;
    }
    Ok(signed)
}
