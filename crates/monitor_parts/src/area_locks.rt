//! Locks on storage areas: who holds which area, who waits for which, and how a request is answered.
//!
//! It stands on the types of the monitor and on the definition of how a request is answered. To the layers above, its
//! contract says that a request is answered so and changes the locks so, whatever the holders and the waits, that a
//! deadlock is answered exactly where a chain of waits ends at the asker, and that each area is held once.
ghost use Rattle.std.specs.{Prelude.{◌≡◌, ◌↔◌, false, IsTrue, IfOk, IfNone, IfSome, OnOk, OnErr, None, Some, ◌&&◌, if◌then◌else◌, ◌+◌, nat_le, is_some, length, option_copied}, FinMap.{find, is_sorted}};
ghost use Rattle.kdcs_types.specs.{declared.key.Area.{Area}, declared.key.ServiceId.{ServiceId}, Keys.{area_cmp, area_eq, id_cmp, id_eq}};
ghost use Rattle.abstract_monitor.specs.declared.answer.LockAnswer.TheVariants as lock_answer;
ghost use Rattle.abstract_monitor.specs.Locks.{holder, holder as holder_of, waits_for, since, is_deadlocked, answer_of, IsDeadlocked};
ghost use Rattle.monitor_parts.specs.{Asked.{no_locks, asked, locks_after, holder_after, holds_area, unlocked, with_holder, without_holder, without_wait, freed, other_than}, Index.{IsOpenTo}};

use abstract_monitor::LockAnswer;
use kd_base::OutOfMemory;
use kd_base::sorted_pairs::{OrderedMap, Pairs};
use kdcs_types::{Area, ServiceId};
use monitor_rules::refused;
use std::alloc::Global;
use std::marker::Model;

/// A service, and an area that it holds. A service with no area stands before all its areas.
type Holding = (ServiceId, Option<Area>);

/// Who holds which area, and who waits for which. Contracts see the two lists. A call costs in proportion to the
/// logarithm of their lengths, but where it says more.
pub struct LockTable {
    holders: OrderedMap<Area, ServiceId>,
    // the holders once more, by service
    held: OrderedMap<Holding, ()>,
    // the area, and the clock of the first request of this wait
    waits: OrderedMap<ServiceId, (Area, u64)>,
}

impl Drop for LockTable {
    fn drop(self) {
        let LockTable {
            holders,
            held,
            waits,
        } = self;
        let _ = holders;
        let _ = held;
        let _ = waits;
    }
}

impl Model for LockTable {
    ghost use Rattle.abstract_monitor.specs.Locks.{Locks};
    ghost use Rattle.monitor_parts.specs.Index.{IsIndex};

    ghost Value = { Locks };

    ghost view = { λ t. record { holders = t.holders; waits = t.waits } };

    ghost invariant = { λ t. IsIndex t.holders t.held };
}

impl LockTable {
    /// Nobody holds an area, and nobody waits.
    pub fn new(alloc: Global) -> LockTable
        ensures { result ≡ no_locks }
    {
        LockTable {
            holders: OrderedMap::new(alloc),
            held: OrderedMap::new(alloc),
            waits: OrderedMap::new(alloc),
        }
    }

    /// The service that holds the area. It takes no memory.
    pub fn holder(&self, area: &Area) -> Option<ServiceId>
        ensures value { result ≡ holder self.now area.now }
        ensures once { IsTrue (is_sorted area_cmp self.now.holders) }
    {
        self.holders.get(area).copied()
    }

    /// The area that a service waits for, and the clock of the first request of this wait, in ticks. It takes no memory.
    pub fn wait_of(&self, who: ServiceId) -> Option<&(Area, u64)>
        ensures { option_copied result ≡ find id_cmp who self.now.waits }
    {
        self.waits.get(&who)
    }

    /// All services that wait, in ascending order, each with the area and the clock of its first request. It takes no memory.
    pub fn waits(&self) -> Pairs<'_, ServiceId, (Area, u64)>
        ensures { result ≡ self.now.waits }
    {
        self.waits.iter()
    }

    /// How many services wait.
    pub fn waiting(&self) -> usize
        ensures { result ≡ length self.now.waits }
    {
        self.waits.len()
    }

    /// Answers the request of a service for an area, at this clock, in ticks, where a wait lasts at most `reswait`
    /// ticks: the area is its own from now on, or the request waits, or it is refused with K04 or K05. It looks at each
    /// wait of the chain that begins at the area's holder. On an error nothing changes.
    pub fn ask(
        &mut self,
        who: ServiceId,
        area: Area,
        now: u64,
        reswait: u64,
    ) -> Result<LockAnswer, OutOfMemory>
        ensures answer { IfOk result (λ answer. answer ≡ answer_of self.old reswait now who area) }
        ensures deadlock { IfOk result (λ answer. (other : ServiceId) → holder self.old area ≡ Some other → id_eq other who ≡ false → answer ≡ lock_answer.Deadlock ↔ IsDeadlocked self.old who area) }
        ensures locks { OnOk result (self.new ≡ asked self.old reswait now who area) }
        ensures holders { IfOk result (λ answer. (a : Area) → holder self.new a ≡ holder_after answer who (area_eq a area) (holder self.old a)) }
        ensures err { OnErr result (self.new ≡ self.old) }
    {
        let holder = self.holder(&area);
        let held = holder.is_some();
        let answer = self.answer(&who, &area, holder, now, reswait);
        self.record_answer(answer, &who, &area, held, now)?;
        Ok(answer)
    }

    /// Gives an area back, and answers false exactly where the service does not hold it. It takes no memory.
    pub fn unlock(&mut self, who: ServiceId, area: &Area) -> bool
        ensures held { result ≡ holds_area self.old who area.now }
        ensures locks { self.new ≡ unlocked self.old who area.now }
        ensures holders { (a : Area) → holder self.new a ≡ (if result && area_eq a area.now then None else holder self.old a) }
    {
        if self.holder(area) != Some(who) {
            return false;
        }
        self.give_back(&who, area);
        true
    }

    // The area is nobody's from now on.
    fn give_back(&mut self, who: &ServiceId, area: &Area)
        requires { IsTrue (holds_area self.old who.now area.now) }
        ensures { self.new ≡ without_holder self.old area.now }
    {
        self.holders.remove(area);
        self.held.remove(&holding(who, area));
    }

    /// Ends the wait of a service. It takes no memory.
    #[tactic(auto, using(crate::proofs::area_locks::Freeing::none_waits))]
    pub fn end_wait(&mut self, who: ServiceId)
        ensures { self.new ≡ without_wait self.old who }
    {
        if self.waits.len() > 0 {
            self.waits.remove(&who);
        }
    }

    /// Gives back all that a service holds, area by area, and ends its wait. It looks at no area of another service,
    /// and takes no memory.
    pub fn free_all(&mut self, who: ServiceId)
        ensures locks { self.new ≡ freed self.old who }
        ensures holders { (a : Area) → holder self.new a ≡ other_than who (holder self.old a) }
    {
        self.waits.remove(&who);
        while let Some(area) = self.first_held(who) {
            self.give_back(&who, &area);
        }
    }

    // The first of the areas that a service holds.
    fn first_held(&self, who: ServiceId) -> Option<Area>
        ensures held { IfSome result (λ area. IsTrue (holds_area self.now who area)) }
        ensures none { IfNone result ((area : Area) → holds_area self.now who area ≡ false) }
        ensures ascending { IsTrue (is_sorted area_cmp self.now.holders) }
    {
        let (holding, _) = self.held.from(&(who, None)).next()?;
        if holding.0 == who { holding.1 } else { None }
    }

    fn answer(
        &self,
        who: &ServiceId,
        area: &Area,
        holder: Option<ServiceId>,
        now: u64,
        reswait: u64,
    ) -> LockAnswer
        requires { holder ≡ holder_of self.now area.now }
        ensures { result ≡ answer_of self.now reswait now who.now area.now }
    {
        match holder {
            None => LockAnswer::Granted,
            Some(other) if other == *who => LockAnswer::Granted,
            Some(other) => refused(
                self.is_deadlocked(who, other),
                self.is_late(who, area, now, reswait),
            ),
        }
    }

    // The locks once a request is answered.
    fn record_answer(
        &mut self,
        answer: LockAnswer,
        who: &ServiceId,
        area: &Area,
        held: bool,
        now: u64,
    ) -> Result<(), OutOfMemory>
        requires open { answer ≡ lock_answer.Granted → IsOpenTo self.old who.now area.now }
        requires held { held ≡ is_some (holder_of self.old area.now) }
        requires once { IsTrue (is_sorted area_cmp self.old.holders) }
        ensures locks { OnOk result (self.new ≡ locks_after answer self.old now who.now area.now) }
        ensures err { OnErr result (self.new ≡ self.old) }
    {
        match answer {
            LockAnswer::Wait => {
                let since = self.since(who, area, now);
                return self.waits.put(*who, (*area, since));
            }
            LockAnswer::Granted => self.grant(who, area, held)?,
            LockAnswer::Busy | LockAnswer::Deadlock => {}
        }
        self.end_wait(*who);
        Ok(())
    }

    // The area is the service's own from now on.
    fn grant(&mut self, who: &ServiceId, area: &Area, held: bool) -> Result<(), OutOfMemory>
        requires open { IsOpenTo self.old who.now area.now }
        requires held { held ≡ is_some (holder_of self.old area.now) }
        requires once { IsTrue (is_sorted area_cmp self.old.holders) }
        ensures locks { OnOk result (self.new ≡ with_holder self.old who.now area.now) }
        ensures err { OnErr result (self.new ≡ self.old) }
    {
        if held {
            return Ok(());
        }
        self.held.put(holding(who, area), ())?;
        if let Err(error) = self.holders.put(*area, *who) {
            // nothing is left of a request that failed
            self.held.remove(&holding(who, area));
            return Err(error);
        }
        Ok(())
    }

    // The clock of the first request of this wait.
    fn since(&self, who: &ServiceId, area: &Area, now: u64) -> u64
        ensures { result ≡ since self.now who.now area.now now }
    {
        match self.waits.get(who) {
            Some(wait) if *area == wait.0 => wait.1,
            _ => now,
        }
    }

    fn is_late(&self, who: &ServiceId, area: &Area, now: u64, reswait: u64) -> bool
        ensures { result ≡ nat_le (since self.now who.now area.now now + reswait) now }
    {
        let since = self.since(who, area, now);
        since <= now && reswait <= now - since
    }

    // The service for which this one waits.
    fn waits_for(&self, id: &ServiceId) -> Option<ServiceId>
        ensures { result ≡ waits_for self.now id.now }
    {
        match self.waits.get(id) {
            Some(wait) => self.holder(&wait.0),
            None => None,
        }
    }

    // Each service waits for one other at most, so the waits are followed, from the holder of the area on.
    fn is_deadlocked(&self, asker: &ServiceId, other: ServiceId) -> bool
        ensures { result ≡ is_deadlocked self.now asker.now other }
    {
        let mut at = other;
        for _ in 0..self.waits.len() {
            if at == *asker {
                return true;
            }
            match self.waits_for(&at) {
                Some(next) => at = next,
                None => return false,
            }
        }
        at == *asker
    }
}

fn holding(who: &ServiceId, area: &Area) -> Holding
    ensures { result ≡ (who.now, Some area.now) }
{
    (*who, Some(*area))
}
