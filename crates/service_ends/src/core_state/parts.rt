//! The parts of a monitor.
ghost use Rattle.std.specs.Prelude.{◌≡◌};

use crate::step_scheduler::Scheduler;
use application_types::generation::Generation;
use application_types::units::Units;
use kd_base::sorted_pairs::OrderedMap;
use kdcs_types::{ServiceId, Tables};
use monitor_parts::area_locks::LockTable;
use monitor_parts::session_table::Sessions;
use monitor_parts::task_units::TaskUnits;
use open_transaction::OpenTransaction;
use open_transaction::async_queue::Jobs;

/// All that a monitor has between two steps. Contracts see all fields; `state_of` is the state that they stand for.
pub struct MonitorParts {
    pub generation: Generation,
    pub units: TaskUnits,
    /// How many turns and commands it has done.
    pub steps: u64,
    pub tables: Tables,
    /// How many pages the durable rows of the tables take together.
    pub charge: u64,
    pub sessions: Sessions,
    /// The ready list and the tasks, with the classes of the services there.
    pub scheduler: Scheduler,
    /// The open transactions by their services, each in a box, so that nothing wide is moved.
    pub active: OrderedMap<ServiceId, Box<OpenTransaction>>,
    /// The areas that the open transactions hold, and the requests that wait.
    pub locks: LockTable,
    /// The jobs of the tables, with marks on those that open services have taken.
    pub jobs: Jobs,
}

impl Drop for MonitorParts {
    fn drop(self) {
        let MonitorParts {
            generation,
            units,
            steps,
            tables,
            charge,
            sessions,
            scheduler,
            active,
            locks,
            jobs,
        } = self;
        let _ = generation;
        let _ = units;
        let _ = steps;
        let _ = tables;
        let _ = charge;
        let _ = sessions;
        let _ = scheduler;
        let _ = active;
        let _ = locks;
        let _ = jobs;
    }
}

impl MonitorParts {
    /// The generation and the units. All else goes.
    pub fn into_application(self) -> (Generation, Units)
        ensures generation { result.0 ≡ self.generation }
        ensures units { result.1 ≡ self.units }
    {
        let MonitorParts {
            generation,
            units,
            steps,
            tables,
            charge,
            sessions,
            scheduler,
            active,
            locks,
            jobs,
        } = self;
        let _ = steps;
        let _ = tables;
        let _ = charge;
        let _ = sessions;
        let _ = scheduler;
        let _ = active;
        let _ = locks;
        let _ = jobs;
        (generation, units.into_units())
    }
}
