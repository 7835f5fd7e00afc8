//! The trail that a run of a script makes: all its entries hold, one after another, and what was written of it is read
//! again.
//!
//! It stands on serial_audit, whose definitions say which entries hold, on those that say what the entries of a run
//! are, on audit_trail and on the laws of runs. The functions do nothing: their contracts are laws on the definitions,
//! which the program above cites.

ghost use Rattle.trail_run.specs.OwnTrails.{OwnEntriesAreShort, OwnEntriesHold, OwnTrailsAreWritable};

use laws_of_runs::laws_of_jobs::makers_say_what_commits_do;
use laws_of_runs::{
    commits_make_the_tables, replays_hold_along_every_script, scripts_are_serial_runs,
};
use laws_of_states::laws_of_steps::steps_commit_once;

/// An auditor who replays the entries of a run, one after another and without the monitor, finds that all hold.
pub fn own_entries_hold()
    ensures { OwnEntriesHold }
{
    steps_commit_once();
    makers_say_what_commits_do();
    replays_hold_along_every_script();
    scripts_are_serial_runs();
}

/// The entries of a run can be written, and the trail that was written of them is read again, unless a transaction has
/// more statements than a line may say.
pub fn own_trails_are_written()
    ensures short { OwnEntriesAreShort }
    ensures writable { OwnTrailsAreWritable }
{
    commits_make_the_tables();
    replays_hold_along_every_script();
}
