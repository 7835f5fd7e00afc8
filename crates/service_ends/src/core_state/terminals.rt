//! Sessions.
ghost use Rattle.std.specs.Prelude.{◌≡◌, OnOk};
ghost use Rattle.abstract_monitor.specs.{Commands.{with_session, without_session}, Turns.{with_last}};
ghost use Rattle.monitor_parts.specs.Signed.{CanSignOn};
ghost use Rattle.service_ends.specs.Standing.{IsIndexed, SameApplication, state_of};

use crate::core_state::parts::MonitorParts;
use kd_base::{Bytes, Name, OutOfMemory};

impl MonitorParts {
    /// A dialogue message becomes the last one of the session at this PTERM, if there is one. It takes no memory.
    pub fn set_last(&mut self, pterm: &Name, message: Bytes)
        requires indexed { IsIndexed self.old }
        ensures indexed { IsIndexed self.new }
        ensures same { SameApplication self.old self.new }
        ensures state { state_of self.new ≡ with_last (state_of self.old) pterm.now message }
    {
        self.sessions.set_last(*pterm, message);
    }

    /// A user who is signed on nowhere signs on at a PTERM where nobody is signed on, and has seen this message.
    pub fn sign_on(
        &mut self,
        pterm: &Name,
        user: &Name,
        last: Option<Bytes>,
    ) -> Result<(), OutOfMemory>
        requires indexed { IsIndexed self.old }
        requires can { CanSignOn (state_of self.old).signed pterm.now user.now }
        ensures indexed { OnOk result (IsIndexed self.new) }
        ensures same { OnOk result (SameApplication self.old self.new) }
        ensures state { OnOk result (state_of self.new ≡ with_session (state_of self.old) pterm.now user.now last) }
    {
        self.sessions.sign_on(*pterm, *user)?;
        if let Some(message) = last {
            self.sessions.set_last(*pterm, message);
        }
        Ok(())
    }

    /// Nobody is signed on at this PTERM from now on. It takes no memory.
    pub fn sign_off(&mut self, pterm: &Name)
        requires indexed { IsIndexed self.old }
        ensures indexed { IsIndexed self.new }
        ensures same { SameApplication self.old self.new }
        ensures state { state_of self.new ≡ without_session (state_of self.old) pterm.now }
    {
        self.sessions.sign_off(*pterm);
    }
}
