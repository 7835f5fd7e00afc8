//! What the tasks hold, with counts of what the limits ask for.
ghost use Rattle.std.specs.{Prelude.{◌≡◌, ◌<◌, ◌≤◌, ◌+◌, ◌==◌, ℕ, None, Some, IfOk, length, map, replicate, slice_get, slice_index_or, slice_set}, List.{list_any}};
ghost use Rattle.abstract_monitor.specs.{Endings.{is_asynchronous}, Picks.{tasks_with}};
ghost use Rattle.service_ends.specs.{Counted.{AreFreeFrom}, Schedule.{holds, left_by}};

use crate::step_scheduler::kinds::{Classed, is_asynchronous};
use kd_base::OutOfMemory;
use kdcs_types::ServiceId;
use std::alloc::Global;
use std::marker::Model;

/// So many classes a number of one byte tells apart.
const CLASSES: usize = 256;

/// The service that each task holds, if any, with the class of its current TAC. The counts are kept, so that a limit is
/// asked for without going over the tasks, and so is where the free tasks at the end begin. Contracts see the list of the
/// places.
pub(crate) struct Places {
    places: Vec<Option<Classed>>,
    /// How many tasks hold a service of each class.
    of_class: Vec<usize>,
    /// How many hold an asynchronous service.
    asynchronous: usize,
    /// From this place on, all are free.
    used: usize,
}

impl Drop for Places {
    fn drop(self) {
        let Places {
            places,
            of_class,
            asynchronous,
            used,
        } = self;
        let _ = places;
        let _ = of_class;
        let _ = asynchronous;
        let _ = used;
    }
}

impl Model for Places {
    ghost use Rattle.std.specs.Prelude.{List, Option};
    ghost use Rattle.abstract_monitor.specs.Picks.{Classed};
    ghost use Rattle.service_ends.specs.Counted.{AreCounts, AreFreeFrom};

    ghost Value = { List (Option Classed) };

    ghost view = { λ p. p.places.items };

    ghost invariant = { λ p. AreCounts p.places.items p.of_class.items p.asynchronous × AreFreeFrom p.places.items p.used };
}

fn all_free(alloc: Global, tasks: u16) -> Result<Vec<Option<Classed>>, OutOfMemory>
    ensures { IfOk result (λ places. places.items ≡ replicate tasks None) }
{
    Ok(vec![in alloc; None; tasks as usize]?)
}

fn no_counts(alloc: Global) -> Result<Vec<usize>, OutOfMemory>
    ensures { IfOk result (λ counts. counts.items ≡ replicate 256 0) }
{
    Ok(vec![in alloc; 0; CLASSES]?)
}

fn holds(place: &Option<Classed>, id: &ServiceId) -> bool
    ensures { result ≡ holds id.now place.now }
{
    match place {
        Some(entry) => *id == entry.0,
        None => false,
    }
}

// Where the free places at the end begin; from `used` on, all are free.
fn used_of(places: &[Option<Classed>], mut used: usize) -> usize
    requires { AreFreeFrom places.now used }
    ensures { AreFreeFrom places.now result }
{
    while used > 0 && matches!(places.get(used - 1), Some(None)) {
        used -= 1;
    }
    used
}

impl Places {
    /// All tasks are free.
    pub(crate) fn new(alloc: Global, tasks: u16) -> Result<Places, OutOfMemory>
        ensures { IfOk result (λ p. p ≡ replicate tasks None) }
    {
        Ok(Places {
            places: all_free(alloc, tasks)?,
            of_class: no_counts(alloc)?,
            asynchronous: 0,
            used: 0,
        })
    }

    fn len(&self) -> usize
        ensures { result ≡ length self.now }
    {
        self.places.len()
    }

    /// What the task at this place holds.
    pub(crate) fn at(&self, place: usize) -> Option<Classed>
        requires { place < length self.now }
        ensures { slice_get self.now place ≡ Some result }
    {
        self.places[place]
    }

    /// How many tasks hold a service of this class. It costs the same whatever they hold.
    pub(crate) fn of_class(&self, class: u8) -> usize
        ensures { result ≡ tasks_with self.now (λ e. e.1 == class) }
    {
        self.of_class[class as usize]
    }

    /// How many tasks hold an asynchronous service. It costs the same whatever they hold.
    pub(crate) fn asynchronous(&self) -> usize
        ensures { result ≡ tasks_with self.now (λ e. is_asynchronous e.0) }
    {
        self.asynchronous
    }

    /// The task holds nothing from now on. It takes no memory.
    pub(crate) fn clear(&mut self, place: usize)
        requires { place < length self.old }
        ensures { self.new ≡ slice_set self.old place None }
    {
        let Some(entry) = self.at(place) else {
            return;
        };
        self.places[place] = None;
        self.of_class[entry.1 as usize] -= 1;
        self.asynchronous -= usize::from(is_asynchronous(&entry.0));
        self.used = used_of(&self.places, self.used);
    }

    /// The task, which is free, holds this service from now on. It takes no memory.
    pub(crate) fn fill(&mut self, place: usize, entry: &Classed)
        requires { slice_get self.old place ≡ Some None }
        ensures { self.new ≡ slice_set self.old place (Some entry.now) }
    {
        self.places[place] = Some(*entry);
        self.of_class[entry.1 as usize] += 1;
        self.asynchronous += usize::from(is_asynchronous(&entry.0));
        self.used = self.used.max(place + 1);
    }

    /// How many places are free in a row, from this one on, of at most so many. It costs the same behind the last one that
    /// is used, and before it in proportion to how many are free.
    pub(crate) fn free_from(&self, place: usize, most: usize) -> usize
        requires { place + most ≤ length self.now }
        ensures most { result ≤ most }
        ensures free { (i : ℕ) → i < result → slice_get self.now (place + i) ≡ Some None }
    {
        if place >= self.used {
            return most;
        }
        for count in 0..most {
            if self.places[place + count].is_some() {
                return count;
            }
        }
        most
    }

    /// Whether a task holds this service.
    pub(crate) fn holds(&self, id: &ServiceId) -> bool
        ensures { result ≡ list_any (holds id.now) self.now }
    {
        self.places.iter().any(|place| holds(place, id))
    }

    // If the task holds this service, it is free from now on.
    fn leave(&mut self, place: usize, id: &ServiceId)
        requires { place < length self.old }
        ensures { self.new ≡ slice_set self.old place (left_by id.now (slice_index_or self.old place None)) }
    {
        if holds(&self.at(place), id) {
            self.clear(place);
        }
    }

    /// No task holds this service from now on. It takes no memory.
    pub(crate) fn release(&mut self, id: &ServiceId)
        ensures { self.new ≡ map (left_by id.now) self.old }
    {
        for place in 0..self.len() {
            self.leave(place, id);
        }
    }
}
