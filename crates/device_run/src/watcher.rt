//! Who sees the turns of a run.
ghost use Rattle.application_types.specs.Statements.{IsWithin};
ghost use Rattle.laws_of_states.specs.Keeping.{HasFacts};

use monitor_core::{Core, Turned};

/// Sees each turn of a task before it and after it, but those of free tasks where there is no work. What it makes of them
/// is its own: a run does the same whoever sees it.
pub trait Watcher {
    /// A turn of this task is next on this core.
    fn before(&mut self, core: &Core, task: u16)
        requires facts { HasFacts core.now.application core.now.state }
        requires task { IsWithin 1 core.now.application.generation.limits.tasks task };

    /// The turn of this task came to this core, and all its acts are stored and sent.
    fn after(&mut self, core: &Core, task: u16, did: &Turned)
        requires facts { HasFacts core.now.application core.now.state }
        requires task { IsWithin 1 core.now.application.generation.limits.tasks task };
}

/// Sees nothing.
#[derive(Drop)]
pub struct Nobody;

impl Watcher for Nobody {
    fn before(&mut self, _core: &Core, _task: u16) {}

    fn after(&mut self, _core: &Core, _task: u16, _did: &Turned) {}
}
