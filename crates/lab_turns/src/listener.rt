//! Who hears what each step did.
ghost use Rattle.std.specs.Prelude.{◌∷◌, ◌++◌, [], List, OnOk};
ghost use Rattle.lab_turns.specs.Heard.{Asked, Done, Heard, Over, Turned};

use crate::error::LabError;
use crate::run_end::RunEnd;
use crate::view::TurnView;
use abstract_monitor::Command;
use kdcs_types::Act;
use monitor_core::Core;

/// Hears what is done, step by step, as it is done. An error of it ends what is performed.
pub trait Listener {
    /// From one moment to a later one it heard of this.
    ghost hears: { Self → List Heard → Self → Type 0 };

    /// A command will be performed.
    fn command(&mut self, command: &Command) -> Result<(), LabError>
        ensures { OnOk result (hears self.old (Asked command.now ∷ []) self.new) };

    /// A turn of a task was done: it came to this core, and these are its acts.
    fn turn(&mut self, core: &Core, turn: &TurnView, acts: &[Act]) -> Result<(), LabError>
        ensures { OnOk result (hears self.old (Turned turn.now core.now.state acts.now ∷ []) self.new) };

    /// A command that is no RUN and no TURN was done: it came to this core, and these are its acts.
    fn done(&mut self, core: &Core, acts: &[Act]) -> Result<(), LabError>
        ensures { OnOk result (hears self.old (Done core.now.state acts.now ∷ []) self.new) };

    /// A RUN is over, after so many turns.
    fn over(&mut self, turns: u64, end: RunEnd) -> Result<(), LabError>
        ensures { OnOk result (hears self.old (Over turns end ∷ []) self.new) };

    /// Between one moment and itself it heard of nothing.
    ghost hears_none: { (l : Self) → hears l [] l };

    /// What it heard at first, and then what it heard later.
    ghost hears_both: { (a b c : Self) (xs ys : List Heard) → hears a xs b → hears b ys c → hears a (xs ++ ys) c };
}
