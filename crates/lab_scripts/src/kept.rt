//! What is printed, kept in memory; and steps of which nobody hears.
ghost use Rattle.std.specs.Prelude.{◌≡◌, ◌++◌, []};

use abstract_monitor::Command;
use kd_base::Bytes;
use kdcs_types::Act;
use lab_turns::lab_printing::Console;
use lab_turns::{LabError, Listener, RunEnd, TurnView};
use monitor_core::Core;
use std::alloc::Global;
use std::marker::Model;

/// Keeps the text that is printed. Contracts see it.
#[derive(Drop)]
pub(crate) struct Kept {
    text: Bytes,
}

impl Model for Kept {
    ghost use Rattle.std.specs.Prelude.{List, ℕ};

    ghost Value = { List ℕ };

    ghost view = { λ k. k.text };
}

impl Kept {
    pub(crate) fn new(alloc: Global) -> Kept
        ensures { result ≡ [] }
    {
        Kept {
            text: Bytes::new(alloc),
        }
    }

    pub(crate) fn as_slice(&self) -> &[u8]
        ensures { result.now ≡ self.now }
    {
        self.text.as_slice()
    }
}

impl Console for Kept {
    ghost use Rattle.std.specs.Prelude.{false};
    ghost use Rattle.std.proofs.Common.{refl};
    ghost use Rattle.lab_scripts.specs.{Kept.{Keeps}, KeptLaws.{keeps_both, keeps_none}};

    ghost prompted = { λ _. false };

    ghost passes = { Keeps };

    /// Nothing is typed at it.
    #[tactic(auto, using(crate::specs::KeptLaws::keeps_end))]
    fn line(&mut self, _alloc: Global) -> Result<Option<Vec<u8>>, LabError> {
        Ok(None)
    }

    #[tactic(auto, using(crate::specs::KeptLaws::keeps_put))]
    fn put(&mut self, text: &[u8]) -> Result<(), LabError> {
        self.text.append(text)?;
        Ok(())
    }

    fn is_prompted(&self) -> bool {
        false
    }

    #[tactic(auto, using(crate::specs::KeptLaws::keeps_none))]
    fn tell(&mut self, _text: &str) {}

    ghost passes_none = { keeps_none };

    ghost passes_both = { keeps_both };

    ghost same_prompt = { λ _ _ _ _. refl };
}

/// Takes what it hears, and does nothing with it.
#[derive(Drop)]
pub(crate) struct Unheard;

impl Listener for Unheard {
    ghost hears = { λ _ _ _. Unit {0} };

    fn command(&mut self, _command: &Command) -> Result<(), LabError> {
        Ok(())
    }

    fn turn(&mut self, _core: &Core, _turn: &TurnView, _acts: &[Act]) -> Result<(), LabError> {
        Ok(())
    }

    fn done(&mut self, _core: &Core, _acts: &[Act]) -> Result<(), LabError> {
        Ok(())
    }

    fn over(&mut self, _turns: u64, _end: RunEnd) -> Result<(), LabError> {
        Ok(())
    }

    ghost hears_none = { λ _. tt };

    ghost hears_both = { λ _ _ _ _ _ _ _. tt };
}
