//! The ready list and the tasks.
ghost use Rattle.std.specs.{Prelude.{◌≡◌, ◌++◌, ◌∷◌, [], IsSome, None, OnOk, not, map, filter}, FinMap.{find}};
ghost use Rattle.kdcs_types.specs.Keys.{id_cmp, id_eq};
ghost use Rattle.abstract_monitor.specs.{Commands.{no_place}, Picks.{class_of, current_by}, Turns.{with_task}};
ghost use Rattle.service_ends.specs.Schedule.{IsTask};
ghost use Rattle.service_ends.specs.Standing.{IsIndexed, SameApplication, state_of};

use crate::core_state::parts::MonitorParts;
use crate::step_scheduler::class_of;
use kd_base::OutOfMemory;
use kdcs_types::ServiceId;

impl MonitorParts {
    /// The task holds no service from now on. It takes no memory.
    pub fn free_task(&mut self, task: u16)
        requires indexed { IsIndexed self.old }
        requires task { IsTask task self.old.scheduler }
        ensures indexed { IsIndexed self.new }
        ensures same { SameApplication self.old self.new }
        ensures state { state_of self.new ≡ with_task (state_of self.old) task None }
    {
        self.scheduler.free(task);
    }

    /// A service with an open transaction goes to the back of the ready list.
    pub fn make_ready(&mut self, id: &ServiceId) -> Result<(), OutOfMemory>
        requires indexed { IsIndexed self.old }
        requires is_open { IsSome (find id_cmp id.now (state_of self.old).active) }
        ensures indexed { OnOk result (IsIndexed self.new) }
        ensures same { OnOk result (SameApplication self.old self.new) }
        ensures state { OnOk result (state_of self.new ≡ record (state_of self.old) { ready = (state_of self.old).ready ++ id.now ∷ [] }) }
    {
        let class = self.class_at(id);
        self.scheduler.ready(*id, class)?;
        Ok(())
    }

    // The class of the service's current TAC.
    fn class_at(&self, id: &ServiceId) -> u8
        requires { IsSome (find id_cmp id.now (state_of self.now).active) }
        ensures { result ≡ class_of self.now.generation (current_by (find id_cmp id.now (state_of self.now).active)) }
    {
        match self.active.get(id) {
            Some(transaction) => class_of(&self.generation, transaction.current),
            None => unreachable!(),
        }
    }

    /// The service is neither ready nor in a task from now on. It takes no memory.
    pub fn withdraw(&mut self, id: &ServiceId)
        requires indexed { IsIndexed self.old }
        ensures indexed { IsIndexed self.new }
        ensures same { SameApplication self.old self.new }
        ensures state { state_of self.new ≡ record (state_of self.old) { ready = filter (λ i. not (id_eq id.now i)) (state_of self.old).ready; tasks = map (no_place id.now) (state_of self.old).tasks } }
    {
        self.scheduler.withdraw(*id);
        self.scheduler.release(*id);
    }
}
