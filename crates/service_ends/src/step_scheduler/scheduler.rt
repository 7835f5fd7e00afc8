//! The ready list and the tasks.
ghost use Rattle.std.specs.{Prelude.{◌≡◌, ◌<◌, ◌≤◌, ◌+◌, ℕ, length, IsTrue, is_some, IfOk, OnOk, OnErr, None}, Map.{values_of}};
ghost use Rattle.service_ends.specs.Schedule.{all_free, is_ready, is_running, released, with_ready, without_ready, IsTask, place_of, service_in, with_class, with_place, took_service, took_job};
ghost use Rattle.service_ends.specs.Schedule.{pick_queued, picked};

use crate::step_scheduler::kinds::Classed;
use crate::step_scheduler::limits::{TaskLimits, class_of_target};
use crate::step_scheduler::places::Places;
use crate::step_scheduler::ready::ReadyQueue;
use abstract_monitor::Work;
use application_types::generation::Generation;
use kd_base::OutOfMemory;
use kd_base::sorted_pairs::Pairs;
use kdcs_types::ServiceId;
use open_transaction::async_queue::{Jobs, QueuedJob};
use std::alloc::Global;
use std::marker::Model;

/// The services that are ready, front first, and the service that each task holds, if any, each with the class of its
/// current TAC. Tasks count from 1, and classes are 1 to 16, and 0 for a TAC with none. Contracts see both lists.
pub struct Scheduler {
    ready: ReadyQueue,
    places: Places,
}

impl Drop for Scheduler {
    fn drop(self) {
        let Scheduler { ready, places } = self;
        let _ = ready;
        let _ = places;
    }
}

impl Model for Scheduler {
    ghost use Rattle.std.specs.Map.{values_of};
    ghost use Rattle.service_ends.specs.Schedule.{Schedule};

    ghost Value = { Schedule };

    ghost view = { λ s. record { ready = values_of s.ready; places = s.places } };
}

impl Scheduler {
    /// Nothing is ready, and all tasks are free.
    pub fn new(alloc: Global, tasks: u16) -> Result<Scheduler, OutOfMemory>
        ensures { IfOk result (λ s. s ≡ all_free tasks) }
    {
        Ok(Scheduler {
            ready: ReadyQueue::new(alloc),
            places: Places::new(alloc, tasks)?,
        })
    }

    /// Puts a service at the back of the ready list, or changes nothing. It costs in proportion to the logarithm of how
    /// many services are ready.
    pub fn ready(&mut self, id: ServiceId, class: u8) -> Result<(), OutOfMemory>
        ensures ok { OnOk result (self.new ≡ with_ready id class self.old) }
        ensures err { OnErr result (self.new ≡ self.old) }
    {
        self.ready.push(&(id, class))
    }

    /// Whether the service is ready or in a task. It takes no memory. It costs in proportion to how many tasks there
    /// are, and to the logarithm of how many services are ready.
    pub fn is_running(&self, id: ServiceId) -> bool
        ensures { result ≡ is_running id self.now }
    {
        self.ready.contains(&id) || self.places.holds(&id)
    }

    /// The services of the ready list, front first, each with the number of its arrival and its class. It takes no memory.
    pub fn waiting(&self) -> Pairs<'_, u64, Classed>
        ensures { values_of result ≡ self.now.ready }
    {
        self.ready.iter()
    }

    /// Takes a service out of the ready list. It answers false exactly where the service is not in the list. A task
    /// that holds the service keeps it until `release`. It takes no memory. For each time that the service is in the
    /// list, it costs in proportion to the logarithm of how many are ready.
    pub fn withdraw(&mut self, id: ServiceId) -> bool
        ensures result { result ≡ is_ready id self.old }
        ensures left { self.new ≡ without_ready id self.old }
    {
        self.ready.withdraw(&id)
    }

    /// What a free task takes: the first service of the ready list that is allowed, else the due job of an allowed TAC
    /// with the least due and number. The task holds it from now on. A service leaves the ready list, and a job is
    /// still to be marked as taken. It takes no memory. Of the ready list it asks for the first service of each kind,
    /// of which there are at most two for each class; each costs in proportion to the logarithm of how many services
    /// are ready.
    pub fn pick(
        &mut self,
        generation: &Generation,
        task: u16,
        jobs: &Jobs,
        now: u64,
    ) -> Option<Work>
        requires task { IsTask task self.old }
        requires free { place_of task self.old ≡ None }
        ensures work { result ≡ pick_queued generation.now self.old.ready self.old.places now jobs.now }
        ensures state { self.new ≡ picked generation.now task now jobs.now self.old }
    {
        let limits = TaskLimits {
            generation,
            places: &self.places,
        };
        match self.ready.first_allowed(&limits) {
            Some(entry) => Some(self.take_service(task, &entry)),
            None => match jobs.first_allowed(&limits, now) {
                Some(job) => Some(self.take_job(generation, task, &job)),
                None => None,
            },
        }
    }

    // The task holds this service of the ready list.
    fn take_service(&mut self, task: u16, entry: &Classed) -> Work
        requires task { IsTask task self.old }
        requires free { place_of task self.old ≡ None }
        ensures work { result ≡ Work.Service entry.now.0 }
        ensures state { self.new ≡ took_service task entry.now self.old }
    {
        self.ready.withdraw(&entry.0);
        self.places.fill(task as usize - 1, entry);
        Work::Service(entry.0)
    }

    // The task holds the service that this job begins.
    fn take_job(&mut self, generation: &Generation, task: u16, job: &QueuedJob) -> Work
        requires task { IsTask task self.old }
        requires free { place_of task self.old ≡ None }
        ensures work { result ≡ Work.Job job.now.number }
        ensures state { self.new ≡ took_job generation.now task job.now self.old }
    {
        let class = class_of_target(generation, &job.to);
        let entry = (ServiceId::Asynchronous(job.number), class);
        self.places.fill(task as usize - 1, &entry);
        Work::Job(job.number)
    }

    /// The task holds no service from now on. It takes no memory.
    pub fn free(&mut self, task: u16)
        requires { IsTask task self.old }
        ensures { self.new ≡ with_place task None self.old }
    {
        self.places.clear(task as usize - 1);
    }

    /// Frees the task that holds this service, if one does, as where its user signs off. It takes no memory, and goes
    /// over the tasks.
    pub fn release(&mut self, id: ServiceId)
        ensures { self.new ≡ released id self.old }
    {
        self.places.release(&id);
    }

    /// The service that the task holds has this class from now on, as PEND PR asks, which looks at no limit. It takes
    /// no memory.
    pub fn stay(&mut self, task: u16, class: u8)
        requires task { IsTask task self.old }
        requires held { IsTrue (is_some (place_of task self.old)) }
        ensures { self.new ≡ with_place task (with_class class (place_of task self.old)) self.old }
    {
        let at = task as usize - 1;
        if let Some(entry) = self.places.at(at) {
            self.places.clear(at);
            self.places.fill(at, &(entry.0, class));
        }
    }

    /// How many tasks are free in a row, from this one on, of at most so many. It takes no memory, and costs the same behind
    /// the last task that holds a service.
    pub fn free_from(&self, task: u16, most: u16) -> u16
        requires task { 1 ≤ task }
        requires within { task + most ≤ length self.now.places + 1 }
        ensures most { result ≤ most }
        ensures free { (i : ℕ) → i < result → place_of (task + i) self.now ≡ None }
    {
        self.places.free_from(task as usize - 1, most as usize) as u16
    }

    /// The service that the task holds, if it holds one. It takes no memory.
    pub fn held_by(&self, task: u16) -> Option<ServiceId>
        requires { IsTask task self.now }
        ensures { result ≡ service_in (place_of task self.now) }
    {
        let entry = self.places.at(task as usize - 1)?;
        Some(entry.0)
    }
}
