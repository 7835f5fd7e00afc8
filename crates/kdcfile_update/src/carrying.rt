//! The tables of a file of other texts are carried.
ghost use Rattle.std.specs.Prelude.{◌≡◌, ◌⊎◌, IsTrue, Ok, Err, IfOk, OnOk, IsErrOf};
ghost use Rattle.kd_device.specs.Device.{Rose, SameFaults};
ghost use Rattle.kdcfile_store.specs.{Kept.{IsKept}, Paged.{HasFile}};
ghost use Rattle.application_types.specs.Soundness.{AreLimits};
ghost use Rattle.record_codec.specs.Records.{content_of_tables};
ghost use Rattle.kd_update.specs.Carrying.{carried, dropped};
ghost use Rattle.kd_update.specs.declared.error.UpdateError.{UpdateError as Cause};
ghost use Rattle.kd_update.specs.declared.error.UpdateError.TheVariants as cause;
ghost use Rattle.kdcfile_update.specs.{Updating.{IsUpdated, MayCarry, judgement}, Parts.{CanCarry, IsOfOthers, IsOpened, WithinUpdate, stored_in}};

use crate::error::CarryError;
use kd_update::{Dropped, carried, judge};
use crate::report::carried_report;
use crate::sending::send;
use application_types::generation::Generation;
use device_acts::warm_start::limits_of;
use kd_device::Device;
use kd_records::Content;
use kdcfile_store::PagedStore;
use kdcs_types::Tables;
use record_codec::records;
use std::alloc::Global;

/// The content of the carried tables, where these may be carried, and how many rows of each kind went.
fn new_content(
    alloc: Global,
    generation: &Generation,
    store: &PagedStore,
    tables: &Tables,
) -> Result<(Content, Dropped), CarryError>
    requires limits { AreLimits generation.now.limits }
    requires opened { IsOpened store.now tables.now }
    ensures content { IfOk result (λ r. r.0 ≡ content_of_tables (carried generation.now tables.now)) }
    ensures gone { IfOk result (λ r. r.1 ≡ dropped tables.now (carried generation.now tables.now)) }
    ensures judged { OnOk result (judgement generation.now (stored_in store.now tables.now) ≡ Ok tt) }
    ensures can { IfOk result (λ r. CanCarry generation.now.limits.blksize generation.now.limits.pgpool store.now r.0) }
    ensures refused { (why : Cause) → IsErrOf result (CarryError.Refused why) → judgement generation.now (stored_in store.now tables.now) ≡ Err why }
    ensures never { IsErrOf result (CarryError.Refused cause.Memory) → ⊥ }
    ensures fine { IsErrOf result CarryError.Failed → ⊥ }
{
    let (new, gone) = carried(alloc, generation, tables)?;
    let limits = store.limits();
    judge(generation, limits.blksize, limits.pgpool, tables, &new)?;
    Ok((records(alloc, &new)?, gone))
}

/// Carries the tables of a file of other texts, in one commit, and reports what went.
pub(crate) fn carry_tables<D: Device>(
    alloc: Global,
    device: &mut D,
    generation: &Generation,
    fingerprint: &[u8; 32],
    store: &mut PagedStore,
    tables: &Tables,
) -> Result<(), CarryError>
    requires opened { IsOpened store.old tables.now }
    requires differs { store.old.identity.fingerprint ≡ fingerprint.now → ⊥ }
    requires kept { IsTrue (D.state device.old).told → IsKept (HasFile store.old) (D.state device.old) (D.leaves device.old) }
    ensures any { WithinUpdate generation.now fingerprint.now (stored_in store.old tables.now) (D.state device.old) (D.state device.new) (D.leaves device.old) (D.leaves device.new) }
    ensures done { OnOk result (IsTrue (D.state device.old).told → MayCarry generation.now fingerprint.now (stored_in store.old tables.now) × IsUpdated generation.now fingerprint.now (stored_in store.old tables.now) (D.state device.old) (D.state device.new) (D.leaves device.new)) }
    ensures refused { (why : Cause) → IsErrOf result (CarryError.Refused why) → IsOfOthers generation.now fingerprint.now (stored_in store.old tables.now) why }
    ensures never { IsErrOf result (CarryError.Refused cause.Memory) → ⊥ }
    ensures fine { (IsErrOf result CarryError.Failed → ⊥) → SameFaults (D.state device.old) (D.state device.new) }
    ensures failed { IsErrOf result CarryError.Failed → Rose (D.state device.old).disk_faults (D.state device.new).disk_faults ⊎ Rose (D.state device.old).line_faults (D.state device.new).line_faults }
{
    let limits = limits_of(generation);
    let (content, gone) = new_content(alloc, generation, store, tables)?;
    let report = carried_report(alloc, generation, gone)?;
    store.carry(alloc, device, &limits, fingerprint, content)?;
    send(alloc, device, store, &report)?;
    Ok(())
}
