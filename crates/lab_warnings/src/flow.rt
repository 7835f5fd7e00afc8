//! What is so where the runs of a unit come to: one walk over its statements along the jumps, to a fixed point over small
//! facts.

use application_types::unit_types::{Action, Unit};
use kd_base::OutOfMemory;
use std::alloc::Global;
use std::collections::BTreeSet;

/// What is so of a run before it does a statement. Each question has facts of its own.
#[derive(Clone, Copy, PartialEq, Eq, PartialOrd, Ord)]
pub(crate) enum Fact {
    /// It comes there: nothing else is asked.
    Comes,
    /// INIT was not done.
    Early,
    /// INIT was done, and no part of a message was put.
    Silent,
    /// A part of a message was put.
    Spoken,
    /// The area was not asked for in the transaction.
    Untouched,
    /// The area may have been read, by another name, and was not written.
    PerhapsRead,
    /// The area was read, and neither written nor freed.
    Read,
    /// The area was written or deleted.
    Written,
    /// The area was read and then freed, and not asked for since.
    Freed,
    /// Anything may have been done with the area.
    Unknown,
    /// The field has any bytes.
    Any,
    /// The field has a number with leading zeros.
    Number,
}

/// As many as there are facts.
const FACTS: usize = 12;

/// What is asked of the runs of a unit.
pub(crate) trait Question {
    /// What is so behind a statement, where this was so before it; none where the run ends with it.
    fn behind(&self, unit: &Unit, action: &Action, fact: Fact) -> Option<Fact>;
}

/// Whether runs come to a place at all.
pub(crate) struct Coming;

impl Question for Coming {
    fn behind(&self, _unit: &Unit, _action: &Action, fact: Fact) -> Option<Fact> {
        Some(fact)
    }
}

/// On which of the ways to a place something is so.
#[derive(Clone, Copy, PartialEq, Eq)]
pub(crate) enum Ways {
    None,
    Some,
    All,
}

/// A place that a run comes to, from 1 to one behind the last statement.
#[derive(Clone, Copy)]
struct Visit {
    place: u32,
    fact: Fact,
    /// How many statements are done at least before that.
    count: u32,
}

/// The places that runs of a unit come to, with what is so there.
pub(crate) struct Walk {
    seen: BTreeSet<(u32, Fact)>,
    /// The nearest first.
    visits: Vec<Visit>,
}

impl Drop for Walk {
    fn drop(self) {
        let Walk { seen, visits } = self;
        drop(seen);
        drop(visits);
    }
}

// Where a run goes on after the statement at this place: behind it, and by a jump.
fn next_places(unit: &Unit, place: u32, action: &Action) -> (Option<u32>, Option<u32>) {
    let next = Some(place.saturating_add(1));
    match action {
        Action::Pend(_, _) => (None, None),
        Action::Jump(label) => (None, unit.label(label.as_slice())),
        Action::If(_, _, _, label) => (next, unit.label(label.as_slice())),
        _ => (next, None),
    }
}

impl Walk {
    // Adds a place with a fact, unless it is there.
    fn add(&mut self, place: Option<u32>, fact: Fact, count: u32) -> Result<(), OutOfMemory> {
        let Some(place) = place else {
            return Ok(());
        };
        if self.seen.insert((place, fact))? {
            self.visits.push(Visit { place, fact, count })?;
        }
        Ok(())
    }

    // Adds what runs come to from here.
    fn follow<Q: Question>(
        &mut self,
        unit: &Unit,
        question: &Q,
        visit: Visit,
    ) -> Result<(), OutOfMemory> {
        let Some(statement) = unit.statement(visit.place) else {
            return Ok(());
        };
        let Some(fact) = question.behind(unit, &statement.action, visit.fact) else {
            return Ok(());
        };
        let count = visit.count.saturating_add(1);
        let (next, jump) = next_places(unit, visit.place, &statement.action);
        self.add(next, fact, count)?;
        self.add(jump, fact, count)
    }

    /// What runs come to from the first statement.
    pub fn whole(alloc: Global, unit: &Unit) -> Result<Walk, OutOfMemory> {
        Walk::from(alloc, unit, &[1], Fact::Comes, &Coming)
    }

    /// Whether some run comes to this place, where nothing else is asked.
    pub fn comes(&self, place: u32) -> bool {
        self.has(place, &[Fact::Comes])
    }

    /// What runs come to that begin at these places, where this is so.
    pub fn from<Q: Question>(
        alloc: Global,
        unit: &Unit,
        starts: &[u32],
        fact: Fact,
        question: &Q,
    ) -> Result<Walk, OutOfMemory> {
        let mut walk = Walk {
            seen: BTreeSet::new(alloc),
            visits: Vec::new(alloc),
        };
        for start in starts {
            walk.add(Some(*start), fact, 0)?;
        }
        walk.follow_all(unit, question)?;
        Ok(walk)
    }

    // Adds all that runs come to from the places that are there.
    fn follow_all<Q: Question>(&mut self, unit: &Unit, question: &Q) -> Result<(), OutOfMemory> {
        // Each place is added once with each fact.
        let most = unit
            .statements()
            .len()
            .saturating_add(1)
            .saturating_mul(FACTS);
        for turn in 0..most {
            let Some(visit) = self.visits.get(turn).copied() else {
                break;
            };
            self.follow(unit, question, visit)?;
        }
        Ok(())
    }

    /// Whether some run comes to this place with one of these facts.
    fn has(&self, place: u32, facts: &[Fact]) -> bool {
        for fact in facts {
            if self.seen.contains(&(place, *fact)) {
                return true;
            }
        }
        false
    }

    /// On which ways to this place one of these facts is so, where all others are those.
    pub fn ways(&self, place: u32, facts: &[Fact], others: &[Fact]) -> Ways {
        if !self.has(place, facts) {
            Ways::None
        } else if self.has(place, others) {
            Ways::Some
        } else {
            Ways::All
        }
    }

    /// The statements of a run that ends as soon as it can, its PEND counted; none where no PEND is reached.
    pub fn shortest(&self, unit: &Unit) -> Option<u32> {
        for visit in &self.visits {
            if let Some(statement) = unit.statement(visit.place) {
                if let Action::Pend(_, _) = &statement.action {
                    return Some(visit.count.saturating_add(1));
                }
            }
        }
        None
    }
}
