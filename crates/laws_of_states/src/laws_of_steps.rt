//! What holds of the abstract monitor: the facts of its states, which tables suit a generation, kept records run again
//! in one go, the laws on a commit, and the cut of a trace.
//!
//! It stands on the definitions of the monitor. The functions do nothing: their contracts are laws on the definitions,
//! which all crates above may cite.

ghost use Rattle.laws_of_states.specs.{DeadlockLaw.{DeadlocksAreFound}, DurableKeys.{DurableIsChanged}, Frames.{TurnsLeaveOthers, CommandsTouchOne, ShowsAtItsTerminal}};
ghost use Rattle.laws_of_states.specs.{Steps.{TurnsCommitOnce, CommandsCommitOnce, StepsMakeTheirTables}, JobLaw.{PointsNumberJobs, EndsDrawNoNumber}, RowLaw.{PointsSetOwnRow, EndsRemoveOwnRow}};

/// A request that is answered K05 waits in a chain that ends at its own service, and no other does.
pub fn deadlocks_are_found()
    ensures { DeadlocksAreFound }
{}

/// Job numbers are drawn at synchronisation points alone, one after another; and only its own service takes a job away, or
/// has it delivered again.
pub fn points_number_jobs()
    ensures points { PointsNumberJobs }
    ensures ends { EndsDrawNoNumber }
{}

/// A synchronisation point and an abnormal end set or remove the row of their own service, and keep all others.
pub fn ends_change_their_own_row()
    ensures points { PointsSetOwnRow }
    ensures ends { EndsRemoveOwnRow }
{}

/// A step of a script has at most one commit. It is first, and is the difference of the durable tables before and
/// after; a step without one changes nothing durable. So a step's commit makes of the durable tables those after it.
pub fn steps_commit_once()
    ensures turns { TurnsCommitOnce }
    ensures commands { CommandsCommitOnce }
    ensures tables { StepsMakeTheirTables }
{}

/// A change of a row that outlives a stop is the same change of the durable tables, and any other is none of them.
pub fn durable_part_is_changed()
    ensures { DurableIsChanged }
{}

/// A step touches one service at most: all others keep their open transactions, rows and requests. RESTART alone ends
/// all of them.
pub fn steps_leave_other_services()
    ensures turns { TurnsLeaveOthers }
    ensures commands { CommandsTouchOne }
{}

/// What KDCOUT and PRINT take out of the tables is the due job of their LTERM, and its message goes next to the terminal
/// of that LTERM.
pub fn shown_messages_go_to_their_terminal()
    ensures { ShowsAtItsTerminal }
{}
