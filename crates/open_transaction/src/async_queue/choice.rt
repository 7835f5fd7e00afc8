//! Which job is taken first.
ghost use Rattle.std.specs.{Prelude.{◌≡◌, IsTrue}, FinMap.{is_sorted}};
ghost use Rattle.kdcs_types.specs.Same.{target_eq};
ghost use Rattle.open_transaction.specs.Queue.{either_of, is_due, is_earlier};
ghost use Rattle.open_transaction.specs.{DueOrder.{due_cmp}, DueIndex.{IsFirst, IsThere, first_target, key_for, tac_in, target_after}};

use crate::async_queue::allows::Allows;
use crate::async_queue::due::DueKey;
use crate::async_queue::queue::QueuedJob;
use kd_base::Name;
use kd_base::sorted_pairs::OrderedMap;
use kdcs_types::Target;

/// The marks of the jobs, by target, due and number.
pub(crate) type DueIndex = OrderedMap<DueKey, bool>;

fn is_earlier(a: &QueuedJob, b: &QueuedJob) -> bool
    ensures { result ≡ is_earlier a.now b.now }
{
    a.due < b.due || (a.due == b.due && a.number < b.number)
}

fn either_of(first: Option<QueuedJob>, other: Option<QueuedJob>) -> Option<QueuedJob>
    ensures { result ≡ either_of first other }
{
    match (&first, &other) {
        (Some(job), Some(found)) if is_earlier(found, job) => other,
        (Some(_), _) => first,
        (None, _) => other,
    }
}

fn is_same(to: &Target, other: &Target) -> bool
    ensures { result ≡ target_eq to.now other.now }
{
    match (to, other) {
        (Target::Tac(tac), Target::Tac(other)) => tac == other,
        (Target::Lterm(lterm), Target::Lterm(other)) => lterm == other,
        (Target::Tac(_), Target::Lterm(_)) | (Target::Lterm(_), Target::Tac(_)) => false,
    }
}

// The first key, from those of this target on, that is not that of a taken job of this target.
fn key_for(by_due: &DueIndex, to: &Target) -> Option<DueKey>
    ensures key { result ≡ key_for to.now by_due.now }
    ensures ascending { IsTrue (is_sorted due_cmp by_due.now) }
{
    let (key, _) = by_due
        .from(&DueKey::first_of(*to))
        .find(|(key, taken)| !**taken || !is_same(to, &key.to))?;
    Some(*key)
}

// The first free job of this target, if it is due. It goes over the jobs before it, which are taken.
pub(crate) fn first_for(by_due: &DueIndex, to: &Target, now: u64) -> Option<QueuedJob>
    ensures { IsFirst (IsThere by_due.now) (is_due now (target_eq to.now)) result }
{
    let key = key_for(by_due, to)?;
    if !is_same(to, &key.to) || key.due > now {
        return None;
    }
    Some(QueuedJob {
        number: key.number,
        to: key.to,
        due: key.due,
        taken: false,
    })
}

// The least target that has a job.
fn first_target(by_due: &DueIndex) -> Option<Target>
    ensures target { result ≡ first_target by_due.now }
    ensures ascending { IsTrue (is_sorted due_cmp by_due.now) }
{
    by_due.iter().next().map(|(key, _)| key.to)
}

// The least target that has a job, among those that are greater than this one.
fn target_after(by_due: &DueIndex, to: &Target) -> Option<Target>
    ensures target { result ≡ target_after to.now by_due.now }
    ensures ascending { IsTrue (is_sorted due_cmp by_due.now) }
{
    let (key, _) = by_due
        .from(&DueKey::last_of(*to))
        .find(|(key, _)| !is_same(to, &key.to))?;
    Some(key.to)
}

// The TAC, if it is one.
fn tac_in(target: &Option<Target>) -> Option<Name>
    ensures { result ≡ tac_in target.now }
{
    match target {
        Some(Target::Tac(tac)) => Some(*tac),
        Some(Target::Lterm(_)) | None => None,
    }
}

// The first of the jobs that are free, due and allowed. It goes over the TACs that have jobs.
pub(crate) fn first_allowed<A: Allows>(
    by_due: &DueIndex,
    allowed: &A,
    now: u64,
) -> Option<QueuedJob>
    ensures { IsFirst (IsThere by_due.now) (is_due now (A.allows allowed.now)) result }
{
    let mut first = None;
    let mut next = first_target(by_due);
    while let Some(tac) = tac_in(&next) {
        let to = Target::Tac(tac);
        if allowed.allows(tac) {
            first = either_of(first, first_for(by_due, &to, now));
        }
        next = target_after(by_due, &to);
    }
    first
}
