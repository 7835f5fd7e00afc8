//! No message doubled or lost: what each commit of the abstract monitor makes of jobs and of services' rows.
//!
//! It stands on the definitions of the monitor, on the laws of single steps, and on the facts of every state that a
//! script comes to. The functions do nothing: their contracts are laws on the definitions, which the monitor and the
//! program above it cite.

ghost use Rattle.laws_of_runs.specs.QueueLaws.{TurnsDoSo, CommandsDoSo, TurnsKeepQueues, CommandsKeepQueues, HistoriesKeepQueues, HistoriesSendAtPoints, JobsAreDoneOnce};
ghost use Rattle.laws_of_runs.specs.{Lawful.{HistoriesAreLawful, RunsAreLawful}, ResumeLaws.{StartsResume, SignOnsResume, CutsResume}, SerialCuts.{CutsAreSerial}, ManyRuns.{AllRunsKeepJobs}};

use crate::{
    commits_are_serial, commits_make_the_tables, facts_hold_along_every_script,
    scripts_are_serial_runs,
};
use laws_of_states::laws_of_places::facts_hold_along;
use laws_of_states::laws_of_steps::steps_commit_once;
use laws_of_states::laws_of_tables::states_stay_sound;

/// What made a commit says what it does: a tick moves the clock, KDCOUT and PRINT show the due job of their LTERM and
/// send its message next, and a transaction ends by its next statement.
pub fn makers_say_what_commits_do()
    ensures turns { TurnsDoSo }
    ensures commands { CommandsDoSo }
{}

/// From a state with its facts, the commit of each step meets the law on jobs and the law on services' rows.
pub fn commits_keep_queues()
    ensures turns { TurnsKeepQueues }
    ensures commands { CommandsKeepQueues }
{
    makers_say_what_commits_do();
}

/// Along every script from a state with its facts, each step that commits meets both laws; and a point that awaits an
/// input of its user sends, after its commit, the message that its row keeps.
pub fn runs_keep_queues()
    ensures laws { HistoriesKeepQueues }
    ensures messages { HistoriesSendAtPoints }
{
    facts_hold_along();
    states_stay_sound();
    makers_say_what_commits_do();
    commits_keep_queues();
}

/// Every step of a run is lawful. Without a maker it makes no commit; with one it makes one, which is first and turns
/// the durable tables before the step into those after it. The commit meets the laws on jobs and on services' rows, it is
/// what its transaction's record, run in one go on the durable tables before it, makes of them, and the message that the
/// row keeps is the line after it.
pub fn runs_are_lawful()
    ensures histories { HistoriesAreLawful }
    ensures runs { RunsAreLawful }
{
    facts_hold_along_every_script();
    commits_make_the_tables();
    commits_are_serial();
    runs_keep_queues();
}

/// Between any two states of a run no job number is drawn twice: the next number does not fall, and a number that was
/// drawn stands for the same job or for none. A job stands until a commit takes it: that of the first point of its own
/// service, that of an abnormal end before it where its fate is to go, or that of KDCOUT or PRINT, which show it. Until
/// then abnormal ends of its service alone change it: its target and the number of its deliveries, as its fate says. A job
/// that is gone, and whose service is over, is never done again.
pub fn jobs_are_done_once()
    ensures { JobsAreDoneOnce }
{
    facts_hold_along();
    states_stay_sound();
    steps_commit_once();
    commits_keep_queues();
}

/// A start has each asynchronous service ready at its last synchronisation point, and no other. A user who signs on
/// sees the last message of their service's point again; where it awaits no input the service is ready there, else the
/// next input goes to it.
pub fn services_resume()
    ensures starts { StartsResume }
    ensures sign_ons { SignOnsResume }
{}

/// What is stored after some first acts of a run are the durable tables of the state after the steps whose commits are
/// among them. A start from them has the facts of a state, and goes on where that state stood: each asynchronous service
/// at its last synchronisation point, and that of each user with RESTART=YES when the user signs on.
pub fn cuts_resume()
    ensures { CutsResume }
{
    steps_commit_once();
    commits_make_the_tables();
    facts_hold_along_every_script();
    services_resume();
}

/// What a stop leaves, wherever it comes, is stored by a serial run of the commits that are done.
pub fn cuts_are_serial()
    ensures { CutsAreSerial }
{
    cuts_resume();
    scripts_are_serial_runs();
}

/// The same over several runs, each from what a stop of the one before left: no number is drawn twice, a job is there until
/// a commit of one of them takes it, and one that is over is never done again. What they leave suits, so a
/// further run can start from it.
pub fn runs_keep_jobs()
    ensures { AllRunsKeepJobs }
{
    facts_hold_along_every_script();
    cuts_resume();
    jobs_are_done_once();
}
