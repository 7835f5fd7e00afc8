//! The laws that commands keep.
ghost use Rattle.call_ends.specs.LawfulRuns.{ScriptsRunLawfully};

use laws_of_runs::facts_hold_along_every_script;
use laws_of_runs::laws_of_access::{locks_make_the_rule, locks_make_the_trace, runs_keep_access};
use laws_of_runs::laws_of_jobs::{
    cuts_are_serial, cuts_resume, jobs_are_done_once, runs_are_lawful, runs_keep_jobs,
};

/// From tables that suit an application, each step of a script of its names is lawful, begins only services that the rule
/// of locks and keys allows, and keeps jobs; each cut of it can be gone on from and is stored by a serial run; and runs one
/// after another keep jobs too, whatever the tables are kept in. It does nothing.
pub fn scripts_of_suited_tables_run_lawfully()
    ensures { ScriptsRunLawfully }
{
    facts_hold_along_every_script();
    runs_are_lawful();
    runs_keep_access();
    locks_make_the_rule();
    locks_make_the_trace();
    jobs_are_done_once();
    cuts_resume();
    cuts_are_serial();
    runs_keep_jobs();
}
