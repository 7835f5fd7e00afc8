//! Whether the rows after changes fit into the page pool.
ghost use Rattle.std.specs.{Prelude.{◌≡◌, IsTrue, nat_lt}, List.{list_all}};
ghost use Rattle.kdcs_types.specs.Tables.{AreChanges, changed};
ghost use Rattle.abstract_monitor.specs.{Charges.{total_charge}, Endings.{durable}};
ghost use Rattle.table_fit.specs.Pages.{FitPool, leaves_short};

use application_types::generation::Generation;
use kdcs_types::{Changes, Tables};
use table_fit::row_charges::takes_more;

/// The durable rows after these changes would take more pages than the pool has, where they take `charge` before them.
/// It costs a look-up for each change.
pub(crate) fn is_pool_full(
    generation: &Generation,
    tables: &Tables,
    changes: &Changes,
    charge: u64,
) -> bool
    requires changes { AreChanges changes.now.items }
    requires charge { charge ≡ total_charge generation.now.limits.blksize (durable generation.now tables.now) }
    requires fit { FitPool generation.now tables.now }
    requires short { IsTrue (list_all (leaves_short generation.now) changes.now.items) }
    ensures { result ≡ nat_lt generation.now.limits.pgpool (total_charge generation.now.limits.blksize (durable generation.now (changed tables.now changes.now))) }
{
    takes_more(generation, tables, changes, charge, generation.max().pgpool)
}
