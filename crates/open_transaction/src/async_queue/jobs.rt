//! The jobs of the tables, with marks.
ghost use Rattle.std.specs.{Prelude.{◌≡◌, IsTrue, false, true, is_some, map, not, IfOk, OnOk, OnErr, None, Some}, FinMap.{find, put}};
ghost use Rattle.kdcs_types.specs.Same.{target_eq};
ghost use Rattle.open_transaction.specs.DueIndex.{rekeyed};
ghost use Rattle.open_transaction.specs.Queue.{first_due, has_mark, queued_at, untaken, with_delivery, with_job, with_mark, without_job};

use crate::async_queue::allows::Allows;
use crate::async_queue::choice::{DueIndex, first_allowed, first_for};
use crate::async_queue::due::DueKey;
use crate::async_queue::queue::{QueuedJob, Waiting};
use kd_base::OutOfMemory;
use kd_base::sorted_pairs::OrderedMap;
use kdcs_types::{Tables, Target};
use std::alloc::Global;
use std::marker::Model;

/// The jobs of the tables in ascending order of their numbers, without their messages, each with a mark that says whether
/// an open service has taken it. A job that is taken stays until it is removed, so that it is there again where its
/// service rolls back. Contracts see the list.
///
/// A call with a number costs in proportion to the logarithm of the number of jobs.
pub struct Jobs {
    by_number: OrderedMap<u64, Waiting>,
    by_due: DueIndex,
}

impl Drop for Jobs {
    fn drop(self) {
        let Jobs { by_number, by_due } = self;
        let _ = by_number;
        let _ = by_due;
    }
}

impl Model for Jobs {
    ghost use Rattle.std.specs.Prelude.{List};
    ghost use Rattle.open_transaction.specs.{declared.async_queue.queue.QueuedJob.{QueuedJob}, DueIndex.{AreIndexed, queue_in}};

    ghost Value = { List QueuedJob };

    ghost view = { λ j. queue_in j.by_number };

    ghost invariant = { λ j. AreIndexed j.by_number j.by_due };
}

// Another value of a key that has one.
fn replace<K: Ord + Copy, V: Drop>(map: &mut OrderedMap<K, V>, key: &K, value: V)
    requires { IsTrue (is_some (find K.cmp key.now map.old)) }
    ensures values { map.new ≡ put K.cmp key.now value map.old }
{
    if let Some(kept) = map.get_mut(key) {
        *kept = value;
    }
}

// The job with the key `old` has the key `new` and is free, or nothing changes.
fn rekey(by_due: &mut DueIndex, old: &DueKey, new: DueKey) -> Result<(), OutOfMemory>
    ensures ok { OnOk result (by_due.new ≡ rekeyed old.now new by_due.old) }
    ensures err { OnErr result (by_due.new ≡ by_due.old) }
{
    by_due.put(new, false)?;
    if *old != new {
        by_due.remove(old);
    }
    Ok(())
}

impl Jobs {
    /// All jobs of the tables. None is taken.
    pub fn from_tables(alloc: Global, tables: &Tables) -> Result<Jobs, OutOfMemory>
        ensures { IfOk result (λ jobs. jobs ≡ map untaken tables.now.jobs) }
    {
        let _clock = tables.clock(); // for the proof
        let mut jobs = Jobs {
            by_number: OrderedMap::new(alloc),
            by_due: OrderedMap::new(alloc),
        };
        for job in tables.jobs() {
            jobs.insert(job.number, job.value.to, job.value.due)?;
        }
        Ok(jobs)
    }

    /// Adds a job, whose number is new, or changes nothing. It is not taken.
    pub fn insert(&mut self, number: u64, to: Target, due: u64) -> Result<(), OutOfMemory>
        requires { queued_at number self.old ≡ None }
        ensures ok { OnOk result (self.new ≡ with_job (record { number = number; to = to; due = due; taken = false }) self.old) }
        ensures err { OnErr result (self.new ≡ self.old) }
    {
        let waiting = Waiting {
            to,
            due,
            taken: false,
        };
        let key = waiting.key(number);
        self.by_due.put(key, false)?;
        if let Err(error) = self.by_number.put(number, waiting) {
            self.by_due.remove(&key);
            return Err(error);
        }
        Ok(())
    }

    /// Marks the job with this number as taken by an open service. It answers false exactly where the job is not there or
    /// is taken already. It takes no memory.
    pub fn take(&mut self, number: u64) -> bool
        ensures result { result ≡ has_mark false (queued_at number self.old) }
        ensures marked { self.new ≡ with_mark number true self.old }
    {
        self.mark(number, true)
    }

    /// Frees the job with this number, whose service is rolled back. It answers false exactly where the job is not there
    /// or is not taken. It takes no memory.
    pub fn put_back(&mut self, number: u64) -> bool
        ensures result { result ≡ has_mark true (queued_at number self.old) }
        ensures marked { self.new ≡ with_mark number false self.old }
    {
        self.mark(number, false)
    }

    // Gives the job this mark, and answers whether it had the other one.
    fn mark(&mut self, number: u64, taken: bool) -> bool
        ensures result { result ≡ has_mark (not taken) (queued_at number self.old) }
        ensures marked { self.new ≡ with_mark number taken self.old }
    {
        let Some(waiting) = self.by_number.get(&number) else {
            return false;
        };
        let changes = waiting.taken != taken;
        let marked = waiting.with_mark(taken);
        replace(&mut self.by_number, &number, marked);
        replace(&mut self.by_due, &marked.key(number), taken);
        changes
    }

    /// Gives the job with this number this target, and frees it: it is delivered again, or is a dead letter. It answers
    /// false exactly where the job is not there. On an error nothing changes.
    pub fn again(&mut self, number: u64, to: Target) -> Result<bool, OutOfMemory>
        ensures result { IfOk result (λ found. found ≡ is_some (queued_at number self.old)) }
        ensures ok { OnOk result (self.new ≡ with_delivery number to self.old) }
        ensures err { OnErr result (self.new ≡ self.old) }
    {
        let Some(waiting) = self.by_number.get(&number) else {
            return Ok(false);
        };
        let again = waiting.for_target(to);
        rekey(&mut self.by_due, &waiting.key(number), again.key(number))?;
        replace(&mut self.by_number, &number, again);
        Ok(true)
    }

    /// Takes the job with this number out, and answers whether it was there. It takes no memory.
    pub fn remove(&mut self, number: u64) -> bool
        ensures found { result ≡ is_some (queued_at number self.old) }
        ensures left { self.new ≡ without_job number self.old }
    {
        match self.by_number.remove(&number) {
            Some(waiting) => {
                self.by_due.remove(&waiting.key(number));
                true
            }
            None => false,
        }
    }

    /// Of the jobs that no service has taken, that are due and whose target is allowed, the one with the least due, and of
    /// those the least number. A job that is due at `now` itself is due. It takes no memory. It goes over the TACs that have
    /// jobs, and for each that is allowed over the jobs that are taken before its first free one.
    pub fn first_allowed<A: Allows>(&self, allowed: &A, now: u64) -> Option<QueuedJob>
        ensures { result ≡ first_due now (A.allows allowed.now) self.now }
    {
        first_allowed(&self.by_due, allowed, now)
    }

    /// The same of the jobs of one target. It goes over the jobs that are taken before the first free one.
    pub fn first_for(&self, to: &Target, now: u64) -> Option<QueuedJob>
        ensures { result ≡ first_due now (target_eq to.now) self.now }
    {
        first_for(&self.by_due, to, now)
    }
}
