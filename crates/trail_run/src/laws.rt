//! A law on the definitions, which all crates above may cite. The function does nothing.
ghost use Rattle.trail_run.specs.Laws.{EntriesAreTheCommits};

use laws_of_runs::commits_make_the_tables;

/// The entries of a history are its commits: as many, in the same order, with the same changes, each with its maker.
pub fn entries_are_the_commits()
    ensures { EntriesAreTheCommits }
{
    commits_make_the_tables();
}
