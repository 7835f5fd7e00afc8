//! The jobs of a transaction before its synchronisation point.
ghost use Rattle.std.specs.Prelude.{◌≡◌, ◌+◌, ◌≤◌, [], ◌∷◌, ◌++◌, length, IfOk, OnOk, OnErr};
ghost use Rattle.kd_base.specs.Limits.{last_clock, last_next_job};
ghost use Rattle.abstract_monitor.specs.Endings.{numbered};
ghost use Rattle.open_transaction.specs.Drafts.{IsInTicks, job_of};

use abstract_monitor::{Draft, Due};
use kd_base::{Bytes, Name, OutOfMemory, Sequence};
use kdcs_types::{Job, JobValue, Target};
use service_parts::timer_queue::due_at;
use std::alloc::Global;
use std::marker::Model;

/// The jobs that FPUT and DPUT made since the last synchronisation point, in order. They have no numbers yet. Contracts
/// see the list.
#[derive(Drop)]
pub struct DraftJobs {
    items: Sequence<Draft>,
}

impl Model for DraftJobs {
    ghost use Rattle.std.specs.{Prelude.{List}, List.{All}};
    ghost use Rattle.abstract_monitor.specs.declared.draft.Draft.{Draft};
    ghost use Rattle.open_transaction.specs.Drafts.{AreInTicks};

    ghost Value = { List Draft };

    ghost view = { λ d. d.items };

    ghost invariant = { λ d. AreInTicks d.items };
}

fn numbered_job(
    draft: &Draft,
    number: u64,
    clock: u64,
    user: Name,
    lterm: Name,
) -> Result<Job, OutOfMemory>
    requires due { IsInTicks draft.now.due }
    requires clock { clock ≤ last_clock }
    ensures { IfOk result (λ job. job ≡ job_of number clock user lterm draft.now) }
{
    Ok(Job {
        number,
        value: JobValue {
            to: draft.to,
            due: due_at(draft.due, clock),
            redelivered: 0,
            user,
            lterm,
            message: draft.message.clone()?,
        },
    })
}

impl DraftJobs {
    pub fn new(alloc: Global) -> DraftJobs
        ensures { result ≡ [] }
    {
        DraftJobs {
            items: Sequence::new(alloc),
        }
    }

    /// How many there are.
    pub fn len(&self) -> usize
        ensures { result ≡ length self.now }
    {
        self.items.len()
    }

    /// Adds a job at the end, or changes nothing. Its ticks are at most 863,999,999: 9,999 days, 23 hours, 59 minutes and
    /// 59 seconds.
    pub fn add(&mut self, to: Target, due: Due, message: Bytes) -> Result<(), OutOfMemory>
        requires { IsInTicks due }
        ensures ok { OnOk result (self.new ≡ self.old ++ record { to = to; due = due; message = message } ∷ []) }
        ensures err { OnErr result (self.new ≡ self.old) }
    {
        self.items.push(Draft { to, due, message })?;
        Ok(())
    }

    /// The jobs that these become at a synchronisation point at this clock: in order, numbered from `next` on. The clock
    /// and the last number are each at most 999,999,999,999.
    pub fn numbered(
        &self,
        next: u64,
        clock: u64,
        user: Name,
        lterm: Name,
        alloc: Global,
    ) -> Result<Vec<Job>, OutOfMemory>
        requires clock { clock ≤ last_clock }
        requires last { next + length self.now ≤ last_next_job }
        ensures { IfOk result (λ jobs. jobs.items ≡ numbered next clock user lterm self.now) }
    {
        let mut jobs = Vec::with_capacity(alloc, self.items.len())?;
        let mut number = next;
        for draft in self.items.as_slice() {
            jobs.push(numbered_job(draft, number, clock, user, lterm)?)?;
            number += 1;
        }
        Ok(jobs)
    }
}
