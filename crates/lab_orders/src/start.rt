//! The start of a monitor, again for each order.
ghost use Rattle.std.specs.Prelude.{◌≡◌, IfOk};
ghost use Rattle.laws_of_states.specs.Suits.{Suits};
ghost use Rattle.application_types.specs.Fitted.{IsFit};
ghost use Rattle.laws_of_runs.specs.{Applied.{applied}, Replays.{AllReplay}};
ghost use Rattle.abstract_monitor.specs.Commands.{started};
ghost use Rattle.laws_of_states.specs.Keeping.{HasFacts};
ghost use Rattle.lab_orders.specs.Walking.{Begun};

use crate::path::Path;
use application_types::generation::Generation;
use application_types::units::Units;
use kd_base::OutOfMemory;
use kdcs_types::Tables;
use monitor_core::Core;
use std::alloc::Global;

/// A monitor starts from a copy of the tables.
pub(crate) fn start(
    alloc: Global,
    generation: Generation,
    units: Units,
    tables: &Tables,
) -> Result<Core, OutOfMemory>
    requires fit { IsFit generation units }
    requires suits { Suits generation tables.now }
    ensures application { IfOk result (λ core. core.application ≡ applied generation units) }
    ensures state { IfOk result (λ core. core.state ≡ started core.application tables.now) }
    ensures facts { IfOk result (λ core. HasFacts core.application core.state) }
    ensures replays { IfOk result (λ core. AllReplay core.application core.state) }
    ensures steps { IfOk result (λ core. core.steps ≡ 0) }
{
    Core::start(alloc, generation, units, tables.clone()?)
}

/// A monitor that starts from a copy of the tables, and an order of which nothing is done.
pub(crate) fn begin(
    alloc: Global,
    generation: Generation,
    units: Units,
    tables: &Tables,
) -> Result<(Core, Path), OutOfMemory>
    requires fit { IsFit generation units }
    requires suits { Suits generation tables.now }
    ensures { IfOk result (λ begun. Begun (applied generation units) tables.now begun.0 begun.1) }
{
    let durable = tables.clone()?;
    let core = start(alloc, generation, units, tables)?;
    Ok((core, Path::start(alloc, durable)))
}
