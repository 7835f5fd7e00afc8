//! Which services and jobs a task may work for: the limits of TAC classes, and ASYNTASKS.
ghost use Rattle.std.specs.Prelude.{◌≡◌, refl, Bool};
ghost use Rattle.kdcs_types.specs.declared.key.Target.{Target};
ghost use Rattle.abstract_monitor.specs.Picks.{class_of, class_is_free, asynchronous_is_free, is_allowed, target_is_allowed};
ghost use Rattle.service_ends.specs.Schedule.{class_of_target};

use crate::step_scheduler::kinds::Kind;
use crate::step_scheduler::places::Places;
use application_types::generation::Generation;
use kd_base::Name;
use kdcs_types::Target;
use open_transaction::async_queue::Allows;

/// The tasks, of which each is free or holds a service, under the limits of a generation.
#[derive(Clone, Copy)]
pub(crate) struct TaskLimits<'a> {
    pub(crate) generation: &'a Generation,
    pub(crate) places: &'a Places,
}

/// The class of a TAC: 1 to 16, and 0 for none.
pub fn class_of(generation: &Generation, tac: Name) -> u8
    ensures { result ≡ class_of generation.now tac }
{
    match generation.tac(tac) {
        Some(entry) => entry.class,
        None => 0,
    }
}

/// The class of a job's TAC, and 0 for a job that goes to an LTERM.
pub(crate) fn class_of_target(generation: &Generation, to: &Target) -> u8
    ensures { result ≡ class_of_target generation.now to.now }
{
    match to {
        Target::Tac(tac) => class_of(generation, *tac),
        Target::Lterm(_) => 0,
    }
}

fn class_is_free(limits: &TaskLimits<'_>, class: u8) -> bool
    ensures { result ≡ class_is_free limits.now.generation.now limits.now.places.now class }
{
    match limits.generation.class_limit(class) {
        Some(limit) => limits.places.of_class(class) < limit as usize,
        None => true,
    }
}

fn asynchronous_is_free(limits: &TaskLimits<'_>) -> bool
    ensures { result ≡ asynchronous_is_free limits.now.generation.now limits.now.places.now }
{
    limits.places.asynchronous() < limits.generation.max().asyntasks as usize
}

/// A task may work for a service of this kind. It costs as much as finding the class's limit.
pub(crate) fn is_allowed(limits: &TaskLimits<'_>, kind: &Kind) -> bool
    ensures { result ≡ is_allowed limits.now.generation.now limits.now.places.now kind.now.asynchronous kind.now.class }
{
    class_is_free(limits, kind.class) && (!kind.asynchronous || asynchronous_is_free(limits))
}

/// A task may begin a service of this TAC. A job for an LTERM is no work of tasks.
impl Allows for TaskLimits<'_> {
    ghost allows = { λ r. target_is_allowed r.generation.now r.places.now };

    ghost no_lterm = { λ r lterm. refl };

    fn allows(&self, tac: Name) -> bool {
        let kind = Kind {
            asynchronous: true,
            class: class_of(self.generation, tac),
        };
        is_allowed(self, &kind)
    }
}
