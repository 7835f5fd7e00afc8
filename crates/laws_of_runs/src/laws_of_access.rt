//! Who starts what along every script: a dialogue service begins only where the rule of locks and keys allows it, at an
//! input or at a PEND FC, and an input is denied just where that rule alone forbids it.
//!
//! It stands on the definitions of the monitor and on the facts of every state that a script comes to. The functions do
//! nothing: their contracts are laws on the definitions, which the program above cites.

ghost use Rattle.laws_of_runs.specs.Access.{TurnsKeepAccess, CommandsKeepAccess, RunsKeepAccess, LocksMakeTheRule, LocksMakeTheTrace};

use crate::facts_hold_along_every_script;
use laws_of_states::laws_of_places::facts_hold_along;
use laws_of_states::laws_of_tables::states_stay_sound;

/// From a state with its facts, each step begins only services that the rule allows, and denies just the inputs that the
/// rule forbids.
pub fn steps_keep_access()
    ensures turns { TurnsKeepAccess }
    ensures commands { CommandsKeepAccess }
{}

/// So does each step of every script.
pub fn runs_keep_access()
    ensures { RunsKeepAccess }
{
    facts_hold_along();
    facts_hold_along_every_script();
    states_stay_sound();
    steps_keep_access();
}

/// In a generation in which no TAC has a lock, inputs and the follow-ups of PENDs are what they are without the rule.
pub fn locks_make_the_rule()
    ensures { LocksMakeTheRule }
{}

/// In such a generation each script has the trace that it has without key sets, whatever key sets there are.
pub fn locks_make_the_trace()
    ensures { LocksMakeTheTrace }
{}
