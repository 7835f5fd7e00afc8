//! The commits among the acts of a step are counted.
ghost use Rattle.std.specs.Prelude.{◌≡◌, ◌<◌, ◌+◌, ◌^◌};
ghost use Rattle.abstract_monitor.specs.Made.{is_commit};
ghost use Rattle.laws_of_states.specs.Cut.{commits_in};

use kdcs_types::Act;

fn is_commit(act: &Act) -> bool
    ensures { result ≡ is_commit act.now }
{
    matches!(act, Act::Commit(_))
}

/// The commits among these acts are counted beside those before, where they are not too many.
pub(crate) fn count_commits(commits: &mut u64, acts: &[Act])
    ensures { commits.old + commits_in acts.now < 2 ^ 64 → commits.new ≡ commits.old + commits_in acts.now }
{
    let more = acts.iter().filter(|act| is_commit(act)).count() as u64;
    *commits = commits.saturating_add(more);
}
