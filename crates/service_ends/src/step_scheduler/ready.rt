//! The services that are ready, in the order of their arrival.
ghost use Rattle.std.specs.{Prelude.{◌≡◌, ◌++◌, ◌∷◌, ◌<◌, [], false, not, length, filter, find, IfOk, IfSome, OnOk, OnErr}, Bool.{OnFalse, OnTrue}, List.{list_any}, Map.{values_of}};
ghost use Rattle.kdcs_types.specs.Keys.{id_eq};
ghost use Rattle.abstract_monitor.specs.Picks.{service_is_allowed};
ghost use Rattle.service_ends.specs.Arrivals.{IsAfter};

use crate::step_scheduler::kinds::Classed;
use crate::step_scheduler::limits::TaskLimits;
use crate::step_scheduler::marks::Marks;
use kd_base::OutOfMemory;
use kd_base::sorted_pairs::{OrderedMap, Pairs};
use kdcs_types::ServiceId;
use std::alloc::Global;
use std::marker::Model;

/// The ready list, front first. Each service has the number of its arrival, and is found by marks. Contracts see the
/// list of the numbers with the services.
pub(crate) struct ReadyQueue {
    arrivals: OrderedMap<u64, Classed>,
    marks: Marks,
    alloc: Global,
}

impl Drop for ReadyQueue {
    fn drop(self) {
        let ReadyQueue {
            arrivals,
            marks,
            alloc,
        } = self;
        let _ = arrivals;
        let _ = marks;
        let _ = alloc;
    }
}

impl Model for ReadyQueue {
    ghost use Rattle.service_ends.specs.Arrivals.{Arrivals, IsQueue};

    ghost Value = { Arrivals };

    ghost view = { λ q. q.arrivals };

    ghost invariant = { λ q. IsQueue q.marks q.arrivals };
}

impl ReadyQueue {
    /// Nothing is ready. It takes no memory.
    pub(crate) fn new(alloc: Global) -> ReadyQueue
        ensures { result ≡ [] }
    {
        ReadyQueue {
            arrivals: OrderedMap::new(alloc),
            marks: Marks::new(alloc),
            alloc,
        }
    }

    /// The numbers with the services, in order.
    pub(crate) fn iter(&self) -> Pairs<'_, u64, Classed>
        ensures { result ≡ self.now }
    {
        self.arrivals.iter()
    }

    fn len(&self) -> usize
        ensures { result ≡ length self.now }
    {
        self.arrivals.len()
    }

    // A number above all, if there is one.
    fn next_number(&self) -> Option<u64>
        ensures { IfSome result (λ number. IsAfter number self.now) }
    {
        match self.arrivals.last() {
            Some((last, _)) => last.checked_add(1),
            None => Some(0),
        }
    }

    // Puts a service at the back with this number, which is above all, or changes nothing.
    fn append(&mut self, number: u64, entry: &Classed) -> Result<(), OutOfMemory>
        requires { IsAfter number self.old }
        ensures ok { OnOk result (self.new ≡ self.old ++ (number, entry.now) ∷ []) }
        ensures err { OnErr result (self.new ≡ self.old) }
    {
        self.marks.add(number, entry)?;
        match self.arrivals.put(number, *entry) {
            Ok(()) => Ok(()),
            Err(fault) => {
                self.marks.remove(number, entry);
                Err(fault)
            }
        }
    }

    // The same services with new numbers, counted from 0.
    fn renumbered(&self) -> Result<ReadyQueue, OutOfMemory>
        ensures same { IfOk result (λ fresh. values_of fresh ≡ values_of self.now) }
        ensures next { IfOk result (λ fresh. IsAfter (length fresh) fresh) }
    {
        let mut fresh = ReadyQueue::new(self.alloc);
        for (_, entry) in self.arrivals.iter() {
            fresh.append(fresh.len() as u64, entry)?;
        }
        Ok(fresh)
    }

    /// Puts a service at the back, or changes nothing. It costs in proportion to the logarithm of how many are ready,
    /// but once in 2^64 arrivals, after which all numbers are counted anew.
    pub(crate) fn push(&mut self, entry: &Classed) -> Result<(), OutOfMemory>
        ensures ok { OnOk result (values_of self.new ≡ values_of self.old ++ entry.now ∷ []) }
        ensures err { OnErr result (self.new ≡ self.old) }
    {
        match self.next_number() {
            Some(number) => self.append(number, entry),
            None => {
                let mut fresh = self.renumbered()?;
                fresh.append(fresh.len() as u64, entry)?;
                *self = fresh;
                Ok(())
            }
        }
    }

    /// Whether the service is ready. It costs in proportion to the logarithm of how many are ready.
    pub(crate) fn contains(&self, id: &ServiceId) -> bool
        ensures { result ≡ list_any (λ e. id_eq id.now e.0) (values_of self.now) }
    {
        self.marks.first_of_service(id).is_some()
    }

    // Takes the first entry of this service out, if there is one, and answers whether there was one.
    fn take_first(&mut self, id: &ServiceId) -> bool
        ensures result { result ≡ list_any (λ e. id_eq id.now e.0) (values_of self.old) }
        ensures others { filter (λ e. not (id_eq id.now e.0)) (values_of self.new) ≡ filter (λ e. not (id_eq id.now e.0)) (values_of self.old) }
        ensures less { OnTrue result (length self.new < length self.old) }
        ensures none { OnFalse result (self.new ≡ self.old) }
    {
        let Some(number) = self.marks.first_of_service(id) else {
            return false;
        };
        if let Some(entry) = self.arrivals.remove(&number) {
            self.marks.remove(number, &entry);
        }
        true
    }

    /// Takes the service out, and answers whether it was ready. It takes no memory. For each time that the service is
    /// ready, it costs in proportion to the logarithm of how many are.
    pub(crate) fn withdraw(&mut self, id: &ServiceId) -> bool
        ensures result { result ≡ list_any (λ e. id_eq id.now e.0) (values_of self.old) }
        ensures left { values_of self.new ≡ filter (λ e. not (id_eq id.now e.0)) (values_of self.old) }
    {
        let is_ready = self.contains(id);
        while self.take_first(id) {}
        is_ready
    }

    /// The first service that a task may work for. One that is not allowed is passed over, and blocks none after it. It
    /// costs in proportion to how many kinds of services were ready, at most two for each class, and to the logarithm
    /// of how many services are.
    pub(crate) fn first_allowed(&self, limits: &TaskLimits<'_>) -> Option<Classed>
        ensures { result ≡ find (service_is_allowed limits.now.generation.now limits.now.places.now) (values_of self.now) }
    {
        let number = self.marks.first_allowed(limits)?;
        self.arrivals.get(&number).copied()
    }
}
