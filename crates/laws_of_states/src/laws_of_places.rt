//! Places, sessions, rows and waits of the abstract monitor: what `IsConsistent` says of a state is kept by each turn
//! and each command, and holds at each start; and what each step keeps holds along every script.
//!
//! It stands on the definitions of the monitor and on what is to hold of its states. The functions do nothing: their
//! contracts are laws on the definitions, which all crates above may cite. `specs/` has the lemmas on one service's view
//! of a state, on the operations that a step is made of, on what a statement keeps, and on scripts (`holds_along`).

ghost use Rattle.laws_of_states.specs.Laws.{TurnsStayConsistent, CommandsStayConsistent, StartsAreConsistent, SoundStepsKeepFacts, FactsHoldAlong};

/// From a state that is consistent, and whose tables and open transactions are sound, each turn of a task and each
/// command of a script comes to a consistent state; and a start from tables that suit the generation does.
pub fn states_stay_consistent()
    ensures turns { TurnsStayConsistent }
    ensures commands { CommandsStayConsistent }
    ensures starts { StartsAreConsistent }
{}

/// Where each step makes tables and open transactions sound, each step keeps both kinds of facts; and then each state
/// of a script from a state with both has both.
pub fn facts_hold_along()
    ensures steps { SoundStepsKeepFacts }
    ensures scripts { FactsHoldAlong }
{}
