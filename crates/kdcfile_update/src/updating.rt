//! The KDCFILE that a device has is carried to a new generation.
ghost use Rattle.std.specs.Prelude.{◌≡◌, ◌⊎◌, List, ℕ, IsTrue, OnOk, IsErrOf};
ghost use Rattle.kd_device.specs.{Device.{Rose, Frame, LeavesOnly, SameFaults, SameNames, Only}, Rest.{Rests}};
ghost use Rattle.kdcfile_store.specs.{Kept.{IsKept}, Paged.{HasFile}};
ghost use Rattle.kd_update.specs.declared.error.UpdateError.{UpdateError as Cause};
ghost use Rattle.kd_update.specs.declared.error.UpdateError.TheVariants as cause;
ghost use Rattle.device_acts.specs.Said.{SameDisk};
ghost use Rattle.kdcfile_update.specs.Updating.{Stored, IsTaken, IsUpToDate, IsUpdated, IsUpdateCut, RefusesAs, Takes, UpdateWrites};
ghost use Rattle.kdcfile_update.specs.Parts.{IsOpened, IsRefusedAs, IsUnsuited, WithinUpdate, stored_in};

use crate::carrying::carry_tables;
use crate::error::CarryError;
use kd_update::UpdateError;
use crate::report::up_to_date_report;
use crate::sending::send;
use application_types::generation::Generation;
use device_acts::warm_start::open_any;
use kd_device::Device;
use kdcfile_store::PagedStore;
use kdcs_types::Tables;
use std::alloc::Global;
use table_fit::suits;

/// Reports that a file of these texts is up to date, where its tables suit.
fn keep_tables<D: Device>(
    alloc: Global,
    device: &mut D,
    generation: &Generation,
    store: &mut PagedStore,
    tables: &Tables,
) -> Result<(), CarryError>
    requires opened { IsOpened store.old tables.now }
    requires kept { IsTrue (D.state device.old).told → IsKept (HasFile store.old) (D.state device.old) (D.leaves device.old) }
    ensures any { WithinUpdate generation.now store.old.identity.fingerprint (stored_in store.old tables.now) (D.state device.old) (D.state device.new) (D.leaves device.old) (D.leaves device.new) }
    ensures done { OnOk result (IsTrue (D.state device.old).told → IsUpToDate generation.now store.old.identity.fingerprint (stored_in store.old tables.now) × IsUpdated generation.now store.old.identity.fingerprint (stored_in store.old tables.now) (D.state device.old) (D.state device.new) (D.leaves device.new)) }
    ensures refused { (why : Cause) → IsErrOf result (CarryError.Refused why) → (why ≡ cause.NotKdcfile) × IsUnsuited generation.now store.old.identity.fingerprint (stored_in store.old tables.now) }
    ensures fine { (IsErrOf result CarryError.Failed → ⊥) → SameFaults (D.state device.old) (D.state device.new) }
    ensures failed { IsErrOf result CarryError.Failed → Rose (D.state device.old).disk_faults (D.state device.new).disk_faults ⊎ Rose (D.state device.old).line_faults (D.state device.new).line_faults }
{
    let limits = store.limits();
    if !suits(generation, tables, limits.blksize, limits.pgpool) {
        return Err(CarryError::Refused(UpdateError::NotKdcfile));
    }
    let report = up_to_date_report(alloc, generation)?;
    send(alloc, device, store, &report)?;
    Ok(())
}

/// Carries a file that was opened, or reports that it is up to date.
fn update_opened<D: Device>(
    alloc: Global,
    device: &mut D,
    generation: &Generation,
    fingerprint: &[u8; 32],
    store: &mut PagedStore,
    tables: &Tables,
) -> Result<(), CarryError>
    requires opened { IsOpened store.old tables.now }
    requires kept { IsTrue (D.state device.old).told → IsKept (HasFile store.old) (D.state device.old) (D.leaves device.old) }
    ensures any { WithinUpdate generation.now fingerprint.now (stored_in store.old tables.now) (D.state device.old) (D.state device.new) (D.leaves device.old) (D.leaves device.new) }
    ensures done { OnOk result (IsTrue (D.state device.old).told → IsTaken generation.now fingerprint.now (stored_in store.old tables.now) × IsUpdated generation.now fingerprint.now (stored_in store.old tables.now) (D.state device.old) (D.state device.new) (D.leaves device.new)) }
    ensures refused { (why : Cause) → IsErrOf result (CarryError.Refused why) → IsRefusedAs generation.now fingerprint.now (stored_in store.old tables.now) why }
    ensures never { IsErrOf result (CarryError.Refused cause.Memory) → ⊥ }
    ensures fine { (IsErrOf result CarryError.Failed → ⊥) → SameFaults (D.state device.old) (D.state device.new) }
    ensures failed { IsErrOf result CarryError.Failed → Rose (D.state device.old).disk_faults (D.state device.new).disk_faults ⊎ Rose (D.state device.old).line_faults (D.state device.new).line_faults }
{
    if *store.fingerprint() == *fingerprint {
        keep_tables(alloc, device, generation, store, tables)
    } else {
        carry_tables(alloc, device, generation, fingerprint, store, tables)
    }
}

/// Carries the KDCFILE that the device has to this generation and the texts with this fingerprint, and reports what
/// went. A file of these texts whose tables suit is up to date; it is not written, and the report says so.
pub fn update<D: Device>(
    alloc: Global,
    device: &mut D,
    generation: &Generation,
    fingerprint: &[u8; 32],
) -> Result<(), CarryError>
    ensures done { OnOk result (IsTrue (D.state device.old).told → (s : Stored) × Takes generation.now fingerprint.now (D.state device.old).holds s × IsUpdated generation.now fingerprint.now s (D.state device.old) (D.state device.new) (D.leaves device.new)) }
    ensures refused { (why : Cause) → IsErrOf result (CarryError.Refused why) → IsTrue (D.state device.old).told → RefusesAs generation.now fingerprint.now (D.state device.old).holds why }
    ensures never { IsErrOf result (CarryError.Refused cause.Memory) → ⊥ }

    // A file that is refused stays as it is.
    ensures still { IsTrue (D.state device.old).told → ((s : Stored) → Takes generation.now fingerprint.now (D.state device.old).holds s → ⊥) → Rests (D.state device.old) (D.state device.new) (D.leaves device.old) (D.leaves device.new) }

    // A stop at any moment leaves the old tables with nothing sent, or the new ones with a front of the report.
    ensures any_moment { IsTrue (D.state device.old).told → Only (D.state device.old).holds (D.state device.old) (D.leaves device.old) → (s : Stored) → Takes generation.now fingerprint.now (D.state device.old).holds s → LeavesOnly (D.state device.old) (D.state device.new) (D.leaves device.old) (D.leaves device.new) (IsUpdateCut generation.now fingerprint.now s (D.state device.old).sent) }

    ensures written { IsTrue (D.state device.old).told → UpdateWrites generation.now fingerprint.now (D.state device.old) (D.state device.new) }
    ensures left { IsTrue (D.state device.old).told → (s : Stored) → Takes generation.now fingerprint.now (D.state device.old).holds s → IsUpToDate generation.now fingerprint.now s → SameDisk (D.state device.old) (D.state device.new) }
    ensures fine { (IsErrOf result CarryError.Failed → ⊥) → SameFaults (D.state device.old) (D.state device.new) }
    ensures failed { IsErrOf result CarryError.Failed → Rose (D.state device.old).disk_faults (D.state device.new).disk_faults ⊎ Rose (D.state device.old).line_faults (D.state device.new).line_faults }
    ensures frame { Frame (D.state device.old) (D.state device.new) }
    ensures names { SameNames (D.state device.old) (D.state device.new) }
{
    let (mut store, tables) = open_any(alloc, device)?;
    update_opened(alloc, device, generation, fingerprint, &mut store, &tables)
}
