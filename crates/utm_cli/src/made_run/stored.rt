//! The tables that the device of a run has.
ghost use Rattle.std.specs.Prelude.{◌≡◌, IfOk};
ghost use Rattle.kd_device.specs.Sure.{sure_state};
ghost use Rattle.kd_records.specs.Identity.{Identity};
ghost use Rattle.kdcfile_load.specs.declared.fault.LoadError.TheVariants as errors;
ghost use Rattle.kdcs_types.specs.Tables.{TableRows};
ghost use Rattle.device_acts.specs.Stands.{StandsForTables};

use kd_base::OutOfMemory;
use kd_device::SureDevice;
use kdcfile_store::{LoadError, PagedStore};
use kdcs_types::Tables;
use record_codec::tables_of;
use std::alloc::Global;

// The one error where the file is a KDCFILE and no call fails.
fn want_of_memory(error: LoadError) -> OutOfMemory
    requires { error ≡ errors.Memory }
{
    match error {
        LoadError::Memory => OutOfMemory,
        LoadError::NotKdcfile | LoadError::Failed => unreachable!(),
    }
}

/// The tables that the file of a device stands for.
pub(crate) fn stored_tables(alloc: Global, device: &mut SureDevice) -> Result<Tables, OutOfMemory>
    requires stands { (i : Identity) × (t : TableRows) × StandsForTables i t (sure_state device.old).holds }
    ensures tables { (i : Identity) (t : TableRows) → StandsForTables i t (sure_state device.old).holds → IfOk result (λ u. u ≡ t) }
    ensures sent { (sure_state device.new).sent ≡ (sure_state device.old).sent }
{
    let store = match PagedStore::load(alloc, device) {
        Ok(store) => store,
        Err(error) => return Err(want_of_memory(error)),
    };
    let Some(tables) = tables_of(alloc, store.kept())? else {
        unreachable!();
    };
    Ok(tables)
}
