//! What holds of every run of the abstract monitor: each state that it reaches has the facts of a state, its commits
//! make, one after another, the durable tables of the state that it comes to, and they are those of a serial run. Beside it
//! stand the laws on jobs (`laws_of_jobs`), on access (`laws_of_access`), and on what an application is
//! (`laws_of_applications`).
//!
//! It stands on the laws of single steps: what they keep of places and sessions, of tables and transactions, and that
//! each commits once at most. The functions do nothing: their contracts are laws on the definitions, which the monitor
//! and the program above it cite. `specs/RunLaws.antt` has what holds of every state and commit, `specs/Replays.antt`
//! says what replays to itself, `specs/SerialRuns.antt` what a serial run is, and `specs/SerialLaws.antt` has the laws
//! on both: an open transaction is the replay of what it has kept, whatever other services did meanwhile; so a
//! transaction that ends does so as its record, run in one go.
#![tactic(auto)]

ghost use Rattle.laws_of_runs.specs.RunLaws.{StartsHaveFacts, ScriptsKeepFacts, HistoriesCommitOnce, HistoriesMakeTables, CommitsMakeTables};
ghost use Rattle.laws_of_runs.specs.SerialLaws.{AllOpeningsReplay, StatementsReplay, InputsReplay, OtherTablesReplay, StepsKeepReplays, ScriptsKeepReplays, ReplaysAreRecords, TurnsEndSerially};
ghost use Rattle.laws_of_runs.specs.SerialLaws.{CommitsBeginWithTheirRow, RecordsHaveMadeNotes, TurnsCommitSerially, CommandsCommitSerially, HistoriesAreSerial, RunsAreSerial};
ghost use Rattle.laws_of_runs.specs.SerialRuns.{TurnsMakeTheirCommits, CommandsMakeTheirCommits, ScriptsAreSerialRuns, StopsLeaveSerialRuns};

use laws_of_states::laws_of_places::{facts_hold_along, states_stay_consistent};
use laws_of_states::laws_of_steps::steps_commit_once;
use laws_of_states::laws_of_tables::states_stay_sound;

/// A start from tables that suit the generation has all facts of a state, and so has each state that a script of the
/// generation's names comes to.
pub fn facts_hold_along_every_script()
    ensures starts { StartsHaveFacts }
    ensures steps { ScriptsKeepFacts }
{
    states_stay_consistent();
    states_stay_sound();
    facts_hold_along();
}

/// Each step of a script commits once at most, and its commit makes of the durable tables before it those after it; so
/// the commits of a script make the durable tables of the state that it comes to.
pub fn commits_make_the_tables()
    ensures once { HistoriesCommitOnce }
    ensures each { HistoriesMakeTables }
    ensures tables { CommitsMakeTables }
{
    steps_commit_once();
    facts_hold_along_every_script();
}

/// A transaction replays to itself when it opens, and after each statement that leaves it open, whatever the request for
/// an area is answered; after the input that a PEND KP awaits; and over all tables in which it sees the same.
pub fn transactions_replay_to_themselves()
    ensures openings { AllOpeningsReplay }
    ensures statements { StatementsReplay }
    ensures inputs { InputsReplay }
    ensures others { OtherTablesReplay }
{}

/// In each state of a script all open transactions replay to themselves, so each is the replay of what it has kept: each
/// turn and each command keeps it, and a start has it.
pub fn replays_hold_along_every_script()
    ensures steps { StepsKeepReplays }
    ensures scripts { ScriptsKeepReplays }
    ensures records { ReplaysAreRecords }
{
    states_stay_sound();
    facts_hold_along();
}

/// A turn that ends a transaction ends it as its record, run in one go on the tables before the turn: with the same
/// tables and the same ending, and each statement, input and note of the record used.
pub fn turns_end_serially()
    ensures { TurnsEndSerially }
{}

/// Such a record began with the row that the durable tables have, where its service outlives a stop; and it has no other
/// notes than a run makes: of an area that was released, and of a request that K04 or K05 refused.
pub fn records_are_of_runs()
    ensures began { CommitsBeginWithTheirRow }
    ensures notes { RecordsHaveMadeNotes }
{}

/// Each commit of a transaction is what its record, run in one go on the durable tables before the commit, makes of
/// them.
pub fn commits_are_serial()
    ensures turns { TurnsCommitSerially }
    ensures commands { CommandsCommitSerially }
    ensures histories { HistoriesAreSerial }
    ensures runs { RunsAreSerial }
{
    replays_hold_along_every_script();
}

/// Serial equivalence: however its services interleave, the durable tables that a script leaves are those of a serial
/// run, in which what made its commits comes one after another, each transaction as its record in one go. So are those
/// that the first steps of a script leave.
pub fn scripts_are_serial_runs()
    ensures turns { TurnsMakeTheirCommits }
    ensures commands { CommandsMakeTheirCommits }
    ensures scripts { ScriptsAreSerialRuns }
    ensures stops { StopsLeaveSerialRuns }
{
    replays_hold_along_every_script();
    commits_make_the_tables();
}

pub mod laws_of_access;
pub mod laws_of_applications;
pub mod laws_of_jobs;
