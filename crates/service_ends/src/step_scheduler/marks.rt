//! By which the ready services are found: their kinds, and the services themselves.
ghost use Rattle.std.specs.{Prelude.{◌≡◌, ◌||◌, ◌&&◌, ℕ, Bool, true, Some, None, [], OnOk, OnErr}, List.{list_any}, Ordering.{nat_cmp}, FinMap.{find, put}};
ghost use Rattle.kd_base.specs.Places.{without};
ghost use Rattle.kdcs_types.specs.Keys.{id_eq};
ghost use Rattle.abstract_monitor.specs.Picks.{Classed, service_is_allowed};
ghost use Rattle.service_ends.specs.{Arrivals.{AreMarks, Arrivals, is_of_kinds, passes}, Index.{IsLeast}, Kinds.{is_of_kind, kind_eq}};

use crate::step_scheduler::index::{Index, first_of};
use crate::step_scheduler::kinds::{Classed, Kind, kind_of};
use crate::step_scheduler::limits::{TaskLimits, is_allowed};
use kd_base::OutOfMemory;
use kd_base::sorted_pairs::OrderedMap;
use kdcs_types::ServiceId;
use std::alloc::Global;

/// Marks of the ready services, by the numbers of their arrivals.
pub(crate) struct Marks {
    /// Each kind that a service has or had: at most two for each class.
    kinds: Vec<Kind>,
    by_kind: Index<Kind>,
    by_service: Index<ServiceId>,
}

impl Drop for Marks {
    fn drop(self) {
        let Marks {
            kinds,
            by_kind,
            by_service,
        } = self;
        let _ = kinds;
        let _ = by_kind;
        let _ = by_service;
    }
}

// The lesser of two numbers, where there are numbers.
fn lesser(a: Option<u64>, b: Option<u64>) -> Option<u64>
    ensures { (p q : ℕ → Bool) → IsLeast p a → IsLeast q b → IsLeast (λ n. p n || q n) result }
{
    match (a, b) {
        (Some(a), Some(b)) => Some(a.min(b)),
        (Some(a), None) => Some(a),
        (None, b) => b,
    }
}

fn is_same(a: &Kind, b: &Kind) -> bool
    ensures { result ≡ kind_eq a.now b.now }
{
    a == b
}

fn is_known(kinds: &[Kind], kind: &Kind) -> bool
    ensures { result ≡ list_any (λ k. kind_eq k kind.now) kinds.now }
{
    kinds.iter().any(|known| is_same(known, kind))
}

// The kind is among those that are gone over.
fn note(kinds: &mut Vec<Kind>, kind: Kind) -> Result<(), OutOfMemory>
    ensures noted { OnOk result ((e : Classed) → is_of_kind kind e ≡ true → is_of_kinds kinds.new.items e ≡ true) }
    ensures kept { (e : Classed) → is_of_kinds kinds.old.items e ≡ true → is_of_kinds kinds.new.items e ≡ true }
{
    if !is_known(kinds, &kind) {
        kinds.push(kind)?;
    }
    Ok(())
}

impl Marks {
    pub(crate) fn new(alloc: Global) -> Marks
        ensures { AreMarks result [] }
    {
        Marks {
            kinds: Vec::new(alloc),
            by_kind: OrderedMap::new(alloc),
            by_service: OrderedMap::new(alloc),
        }
    }

    /// The service that arrived with this number is found from now on, or nothing changes.
    pub(crate) fn add(&mut self, number: u64, entry: &Classed) -> Result<(), OutOfMemory>
        ensures ok { OnOk result ((arrivals : Arrivals) → find nat_cmp number arrivals ≡ None → AreMarks self.old arrivals → AreMarks self.new (put nat_cmp number entry.now arrivals)) }
        ensures err { OnErr result ((arrivals : Arrivals) → find nat_cmp number arrivals ≡ None → AreMarks self.old arrivals → AreMarks self.new arrivals) }
    {
        let kind = kind_of(entry);
        note(&mut self.kinds, kind)?;
        self.by_kind.put((kind, number), ())?;
        match self.by_service.put((entry.0, number), ()) {
            Ok(()) => Ok(()),
            Err(fault) => {
                self.by_kind.remove(&(kind, number));
                Err(fault)
            }
        }
    }

    /// The service that arrived with this number is no longer found. It takes no memory.
    pub(crate) fn remove(&mut self, number: u64, entry: &Classed)
        ensures { (arrivals : Arrivals) → find nat_cmp number arrivals ≡ Some entry.now → AreMarks self.old arrivals → AreMarks self.new (without nat_cmp number arrivals) }
    {
        self.by_kind.remove(&(kind_of(entry), number));
        self.by_service.remove(&(entry.0, number));
    }

    /// The number with which the service arrived first.
    pub(crate) fn first_of_service(&self, id: &ServiceId) -> Option<u64>
        ensures { (arrivals : Arrivals) → AreMarks self.now arrivals → IsLeast (passes (λ e. id_eq id.now e.0) arrivals) result }
    {
        first_of(&self.by_service, id)
    }

    // The number with which the first service of this kind arrived, if it is allowed.
    fn first_of_kind(&self, limits: &TaskLimits<'_>, kind: &Kind) -> Option<u64>
        ensures { (arrivals : Arrivals) → AreMarks self.now arrivals → IsLeast (passes (λ e. is_of_kind kind.now e && service_is_allowed limits.now.generation.now limits.now.places.now e) arrivals) result }
    {
        if is_allowed(limits, kind) {
            first_of(&self.by_kind, kind)
        } else {
            None
        }
    }

    /// The number with which the first service arrived that a task may work for. It goes over the kinds, and not over
    /// the services.
    pub(crate) fn first_allowed(&self, limits: &TaskLimits<'_>) -> Option<u64>
        ensures { (arrivals : Arrivals) → AreMarks self.now arrivals → IsLeast (passes (service_is_allowed limits.now.generation.now limits.now.places.now) arrivals) result }
    {
        let mut first = None;
        for kind in &self.kinds {
            first = lesser(first, self.first_of_kind(limits, kind));
        }
        first
    }
}
