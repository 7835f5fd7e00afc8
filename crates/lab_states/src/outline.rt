//! The outline of a state.
ghost use Rattle.std.specs.Prelude.{◌≡◌, IfOk, map, true};
ghost use Rattle.laws_of_states.specs.Keeping.{HasFacts};
ghost use Rattle.lab_states.specs.Outlines.{outlined};

use crate::kept::{KeptSoFar, have_same_counts, kept_in};
use crate::same::{all_same, same_tables};
use crate::scheduled::{held_in, ready_in, waits_in};
use crate::signed::{SignedOn, signed_in};
use kd_base::{Name, OutOfMemory, Sequence};
use kdcs_types::{Area, ServiceId, Tables};
use monitor_core::Core;
use std::alloc::Global;
use std::marker::Model;

/// What determines a state of a monitor. Contracts see it as one value.
pub struct Outline {
    tables: Tables,
    signed: Sequence<(Name, SignedOn)>,
    ready: Sequence<ServiceId>,
    tasks: Sequence<Option<ServiceId>>,
    waits: Sequence<(ServiceId, (Area, u64))>,
    kept: Sequence<KeptSoFar>,
}

impl Drop for Outline {
    fn drop(self) {
        let Outline {
            tables,
            signed,
            ready,
            tasks,
            waits,
            kept,
        } = self;
        let _ = tables;
        let _ = signed;
        let _ = ready;
        let _ = tasks;
        let _ = waits;
        let _ = kept;
    }
}

impl Model for Outline {
    ghost use Rattle.lab_states.specs.Outlines.{Outlined};

    ghost Value = { Outlined };

    ghost view = { λ o. record { tables = o.tables; signed = o.signed; ready = o.ready; tasks = o.tasks; waits = o.waits; kept = o.kept } };
}

impl Outline {
    /// The outline of the state of a core.
    pub fn of(alloc: Global, core: &Core) -> Result<Outline, OutOfMemory>
        requires facts { HasFacts core.now.application core.now.state }
        ensures { IfOk result (λ outline. outline ≡ outlined core.now.state) }
    {
        let parts = core.parts();
        Ok(Outline {
            tables: parts.tables.clone()?,
            signed: signed_in(alloc, &parts.sessions)?,
            ready: ready_in(alloc, &parts.scheduler)?,
            tasks: held_in(alloc, &parts.scheduler, core.tasks())?,
            waits: waits_in(alloc, &parts.locks)?,
            kept: kept_in(alloc, &parts.active)?,
        })
    }

    // Whether both have come as far: the clock is the same, and the transactions have done the same numbers of statements.
    fn is_as_far_as(&self, other: &Outline) -> bool
        ensures clock { result ≡ true → self.now.tables.clock ≡ other.now.tables.clock }
        ensures statements { result ≡ true → map (λ k. k.statements) self.now.kept ≡ map (λ k. k.statements) other.now.kept }
    {
        self.tables.clock() == other.tables.clock()
            && have_same_counts(self.kept.as_slice(), other.kept.as_slice())
    }

    // Whether the same services are ready and in tasks, and wait for the same.
    fn is_scheduled_as(&self, other: &Outline) -> bool
        ensures ready { result ≡ true → self.now.ready ≡ other.now.ready }
        ensures tasks { result ≡ true → self.now.tasks ≡ other.now.tasks }
        ensures waits { result ≡ true → self.now.waits ≡ other.now.waits }
    {
        all_same(self.tasks.as_slice(), other.tasks.as_slice())
            && all_same(self.ready.as_slice(), other.ready.as_slice())
            && all_same(self.waits.as_slice(), other.waits.as_slice())
    }

    /// Whether both are found to be the same. It takes no memory. What is compared fast comes first, and the rows of the
    /// tables come last.
    pub fn is_same(&self, other: &Outline) -> bool
        ensures { result ≡ true → self.now ≡ other.now }
    {
        self.is_as_far_as(other)
            && self.is_scheduled_as(other)
            && all_same(self.kept.as_slice(), other.kept.as_slice())
            && all_same(self.signed.as_slice(), other.signed.as_slice())
            && same_tables(&self.tables, &other.tables)
    }
}
