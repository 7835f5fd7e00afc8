//! Open transactions.
ghost use Rattle.std.specs.{Prelude.{◌≡◌, IfSome, None, OnOk, false}, Option.{option_map}, FinMap.{find}};
ghost use Rattle.kdcs_types.specs.Keys.{id_cmp};
ghost use Rattle.abstract_monitor.specs.{Endings.{opened}, Sessions.{is_running}, Turns.{with_open, without_open}};
ghost use Rattle.open_transaction.specs.Transactions.{accepted_of, boxed_transaction, HasOrder};
ghost use Rattle.service_ends.specs.{Queue.{marked_for}, Standing.{IsIndexed, IsOwned, SameApplication, state_of}};

use crate::core_state::parts::MonitorParts;
use kd_base::OutOfMemory;
use kdcs_types::{Header, Parts, Service, ServiceId};
use open_transaction::OpenTransaction;
use open_transaction::async_queue::Jobs;
use std::alloc::Global;

// The job of an asynchronous service is taken, or free.
fn mark(jobs: &mut Jobs, id: &ServiceId, taken: bool)
    ensures { jobs.new ≡ marked_for taken id.now jobs.old }
{
    match id {
        ServiceId::Asynchronous(number) if taken => {
            jobs.take(*number);
        }
        ServiceId::Asynchronous(number) => {
            jobs.put_back(*number);
        }
        ServiceId::Dialogue(_) => {}
    }
}

impl MonitorParts {
    /// A service that has no open transaction, and is neither ready nor in a task, opens one: from its row if it has one,
    /// with these parts to read, which are an input that it accepted, or a message that was handed on or is a job's.
    pub fn open(
        &mut self,
        alloc: Global,
        id: &ServiceId,
        began: Option<Service>,
        header: Header,
        handed: Parts,
        accepted: bool,
    ) -> Result<(), OutOfMemory>
        requires indexed { IsIndexed self.old }
        requires order { HasOrder began }
        requires closed { find id_cmp id.now (state_of self.old).active ≡ None }
        requires unplaced { is_running (state_of self.old) id.now ≡ false }
        ensures indexed { OnOk result (IsIndexed self.new) }
        ensures same { OnOk result (SameApplication self.old self.new) }
        ensures state { OnOk result (state_of self.new ≡ with_open (state_of self.old) id.now (opened self.old.generation began header handed (accepted_of accepted handed))) }
    {
        let transaction = OpenTransaction::begin(
            alloc,
            &self.generation,
            *id,
            began,
            header,
            handed,
            accepted,
        )?;
        self.active.put(*id, transaction)?;
        mark(&mut self.jobs, id, true);
        Ok(())
    }

    /// The open transaction of a service that is neither ready nor in a task is over: the service holds no area and waits
    /// for none, and its job is free. It takes no memory.
    pub fn close(&mut self, id: &ServiceId) -> Option<Box<OpenTransaction>>
        requires indexed { IsIndexed self.old }
        requires unplaced { is_running (state_of self.old) id.now ≡ false }
        ensures indexed { IsIndexed self.new }
        ensures same { SameApplication self.old self.new }
        ensures state { state_of self.new ≡ without_open (state_of self.old) id.now }
        ensures found { option_map boxed_transaction result ≡ find id_cmp id.now (state_of self.old).active }
        ensures owned { IfSome result (λ transaction. IsOwned self.old.generation self.old.steps (id.now, transaction)) }
    {
        let transaction = self.active.remove(id);
        self.locks.free_all(*id);
        mark(&mut self.jobs, id, false);
        transaction
    }
}
