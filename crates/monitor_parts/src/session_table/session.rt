//! A session of a user.
ghost use Rattle.std.specs.{Prelude.{◌≡◌, Some, None}, Option.{option_copied}};

use kd_base::{Bytes, Name};
use std::marker::Model;

/// A user who is signed on, and the last dialogue message of this session.
#[derive(Drop)]
pub struct Session {
    user: Name,
    last: Option<Bytes>,
}

impl Model for Session {
    ghost use Rattle.abstract_monitor.specs.State.{Session as Signed};

    ghost Value = { Signed };

    ghost view = { λ s. record { user = s.user; last = s.last } };
}

impl Session {
    /// A session that begins.
    pub fn of(user: Name) -> Session
        ensures { result ≡ record { user = user; last = None } }
    {
        Session { user, last: None }
    }

    pub fn user(&self) -> Name
        ensures { result ≡ self.now.user }
    {
        self.user
    }

    pub fn last(&self) -> Option<&Bytes>
        ensures { option_copied result ≡ self.now.last }
    {
        self.last.as_ref()
    }

    /// A message becomes the last one. It takes no memory.
    pub fn set_last(&mut self, message: Bytes)
        ensures { self.new ≡ record self.old { last = Some message } }
    {
        self.last = Some(message);
    }
}
