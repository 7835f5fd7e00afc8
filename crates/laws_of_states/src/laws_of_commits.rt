//! What a commit makes of a monitor's tables, where they also have the rows of services that no stop leaves: the changes
//! of the durable tables, made in the whole tables, give the tables after a synchronisation point, an abnormal end,
//! KDCOUT, PRINT and TICK, once the service's own row is set or removed.
//!
//! It stands on the laws of tables and of single steps. The functions do nothing: their contracts are laws on the
//! definitions, which the core cites where it changes its own tables by what it hands out as a commit.

ghost use Rattle.laws_of_states.specs.CommitLaws.{DifferencesAreChanges, DifferencesMakeTables, DifferencesAndRowMake, RowsAreOneChange, PointsMakeTables, EndsMakeTables, ShowsMakeTables};
ghost use Rattle.laws_of_states.specs.CommitLaws.{DueJobsStand, TicksMakeTables, OpenNumbersAreDrawn, ClosedAreNotPlaced, FreeJobsAreNotPlaced, JobsHaveNoRow};

/// The difference of the durable parts of two tables in order makes the one of the other, where the services that no
/// stop leaves have the same rows; where one of them has another, its row is set or removed beside it, which is one
/// change.
pub fn differences_make_tables()
    ensures changes { DifferencesAreChanges }
    ensures tables { DifferencesMakeTables }
    ensures row { DifferencesAndRowMake }
    ensures one { RowsAreOneChange }
{}

/// The changes of a synchronisation point or an abnormal end, and then the service's own row, make the tables after it,
/// in order.
pub fn points_and_ends_make_tables()
    ensures points { PointsMakeTables }
    ensures ends { EndsMakeTables }
{}

/// The changes of KDCOUT and PRINT are the job that goes and the message that is shown, if another was; those of TICK
/// are the clock. They make the tables after the command. The due job of an LTERM is in the tables.
pub fn commands_make_tables()
    ensures shows { ShowsMakeTables }
    ensures due { DueJobsStand }
    ensures ticks { TicksMakeTables }
{}

/// In a state with its facts, an open asynchronous service has a number below the next job number; a service without an
/// open transaction is neither ready nor in a task; and a job's service has no row.
pub fn open_services_and_jobs()
    ensures drawn { OpenNumbersAreDrawn }
    ensures closed { ClosedAreNotPlaced }
    ensures free { FreeJobsAreNotPlaced }
    ensures no_row { JobsHaveNoRow }
{}
