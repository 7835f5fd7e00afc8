//! The sessions.
ghost use Rattle.std.specs.{Prelude.{◌≡◌, List, ℕ, [], MatchOption, Ok, Some, None, OnOk, OnErr, IfOk, IsTrue, bytes_eq, not}, Bool.{OnFalse}, Option.{option_copied, option_map}, List.{list_any}};
ghost use Rattle.std.specs.{FinMap.{find, put}, FinMap.Entries.{where_key}};
ghost use Rattle.abstract_monitor.specs.{Bytes.{bytes_cmp}, Commands.{last_by}, CommandsOf.{is_pterm}, Sessions.{has_user, use_of}, Turns.{pterm_of_user}, declared.input_use.Use.TheVariants.{Sign}};
ghost use Rattle.monitor_parts.specs.{Inputs.{holds_text}, Signed.{AreSessions, CanSignOn}};

use crate::session_table::input::{Caller, lterm_of, use_signed, use_unsigned};
use crate::session_table::session::Session;
use crate::session_table::split::Split;
use abstract_monitor::{ServiceState, Use};
use application_types::generation::Generation;
use kd_base::sorted_pairs::{OrderedMap, Pairs};
use kd_base::{Bytes, Name, OutOfMemory};
use std::alloc::Global;
use std::marker::Model;

/// The sessions by their PTERMs, and the PTERM of each user who is signed on. Contracts see the list of sessions, in
/// ascending order of the PTERMs; a user is in one at most. A call costs in proportion to the logarithm of their number.
pub struct Sessions {
    by_pterm: OrderedMap<Name, Session>,
    by_user: OrderedMap<Name, Name>,
    alloc: Global,
}

impl Drop for Sessions {
    fn drop(self) {
        let Sessions {
            by_pterm,
            by_user,
            alloc,
        } = self;
        let _ = by_pterm;
        let _ = by_user;
        let _ = alloc;
    }
}

impl Model for Sessions {
    ghost use Rattle.std.specs.Prelude.{List, ℕ};
    ghost use Rattle.abstract_monitor.specs.State.{Session as Signed};
    ghost use Rattle.monitor_parts.specs.Signed.{AreSessions, ArePterms};

    ghost Value = { List (List ℕ × Signed) };

    ghost view = { λ s. s.by_pterm };

    ghost invariant = { λ s. AreSessions s.by_pterm × ArePterms s.by_pterm s.by_user };
}

impl Sessions {
    /// Nobody is signed on.
    pub fn new(alloc: Global) -> Sessions
        ensures { result ≡ [] }
    {
        Sessions {
            by_pterm: OrderedMap::new(alloc),
            by_user: OrderedMap::new(alloc),
            alloc,
        }
    }

    /// A user who is signed on nowhere signs on at a PTERM where nobody is signed on. On an error nothing changes.
    pub fn sign_on(&mut self, pterm: Name, user: Name) -> Result<(), OutOfMemory>
        requires { CanSignOn self.old pterm user }
        ensures ok { OnOk result (self.new ≡ put bytes_cmp pterm (record { user = user; last = None }) self.old) }
        ensures err { OnErr result (self.new ≡ self.old) }
    {
        self.by_user.put(user, pterm)?;
        if let Err(error) = self.by_pterm.put(pterm, Session::of(user)) {
            self.by_user.remove(&user);
            return Err(error);
        }
        Ok(())
    }

    /// The user at this PTERM signs off; `None` where nobody is signed on there. It takes no memory.
    pub fn sign_off(&mut self, pterm: Name) -> Option<Name>
        ensures user { result ≡ option_map (λ v. v.user) (find bytes_cmp pterm self.old) }
        ensures left { self.new ≡ where_key bytes_cmp (λ p. not (bytes_eq pterm p)) self.old }
    {
        let user = self.by_pterm.remove(&pterm)?.user();
        self.by_user.remove(&user);
        Some(user)
    }

    /// Who is signed on at this PTERM. It takes no memory.
    pub fn user_at(&self, pterm: Name) -> Option<Name>
        ensures { result ≡ option_map (λ v. v.user) (find bytes_cmp pterm self.now) }
    {
        Some(self.by_pterm.get(&pterm)?.user())
    }

    /// Where this user is signed on. It takes no memory.
    pub fn pterm_of(&self, user: Name) -> Option<Name>
        ensures exact { result ≡ pterm_of_user self.now user }
        ensures once { AreSessions self.now }
    {
        self.by_user.get(&user).copied()
    }

    /// Whether this user is signed on anywhere. It takes no memory.
    pub fn is_signed_on(&self, user: Name) -> bool
        ensures exact { result ≡ list_any (has_user user) self.now }
        ensures nowhere { OnFalse result (pterm_of_user self.now user ≡ None) }
    {
        self.pterm_of(user).is_some()
    }

    /// What an input means at this PTERM of the generation, where the service of the user who is signed on there, if one
    /// is, has this state. Memory is wanted only for the text that a service reads.
    pub fn use_of(
        &self,
        generation: &Generation,
        state: ServiceState,
        pterm: Name,
        text: &[u8],
    ) -> Result<Use, OutOfMemory>
        requires pterm { IsTrue (is_pterm generation.now pterm) }
        ensures ok { IfOk result (λ u. u ≡ use_of generation.now self.now state pterm text.now) }
        ensures sign { (user : List ℕ) → result ≡ Ok (Sign user) → CanSignOn self.now pterm user }
        ensures memory { OnErr result (IsTrue (holds_text (use_of generation.now self.now state pterm text.now))) }
    {
        let pieces = Split::at(b' ', text);
        let Some(user) = self.user_at(pterm) else {
            return Ok(use_unsigned(generation, self, &pieces));
        };
        let lterm = lterm_of(generation, pterm);
        let caller = Caller { user, lterm };
        use_signed(self.alloc, generation, caller, text, &pieces, state)
    }

    /// All sessions, each with its PTERM, in ascending order of these. It takes no memory.
    pub fn iter(&self) -> Pairs<'_, Name, Session>
        ensures { result ≡ self.now }
    {
        self.by_pterm.iter()
    }

    /// A message becomes the last one of the session at this PTERM. Nothing changes where nobody is signed on there. It
    /// takes no memory.
    pub fn set_last(&mut self, pterm: Name, message: Bytes)
        ensures { MatchOption (find bytes_cmp pterm self.old) (self.new ≡ self.old)
            (λ v. self.new ≡ put bytes_cmp pterm (record v { last = Some message }) self.old) }
    {
        let Some(session) = self.by_pterm.get_mut(&pterm) else {
            return;
        };
        session.set_last(message);
    }

    /// The last message of the session at this PTERM, if there is one. It takes no memory.
    pub fn last(&self, pterm: Name) -> Option<&Bytes>
        ensures { option_copied result ≡ last_by (find bytes_cmp pterm self.now) }
    {
        self.by_pterm.get(&pterm)?.last()
    }
}
