//! The lines of a report are sent, over a store.
ghost use Rattle.std.specs.Prelude.{◌≡◌, ◌⊎◌, ℕ, true, IsTrue, OnOk, IsErrOf};
ghost use Rattle.kd_device.specs.Device.{Rose, SameFaults};
ghost use Rattle.kd_records.specs.Identity.{Identity};
ghost use Rattle.kdcfile_store.specs.{Kept.{IsKept}, Paged.{HasFile}};
ghost use Rattle.kdcs_types.specs.Tables.{TableRows};
ghost use Rattle.abstract_monitor.specs.Trace.{tables_after};
ghost use Rattle.device_acts.specs.Stands.{KeepsTables, StandsForTables};
ghost use Rattle.device_acts.specs.Acting.{WithinActs, WritesUpTo, commits_nothing};
ghost use Rattle.kdcfile_update.specs.Parts.{IsReported};

use device_acts::do_acts;
use kd_device::{Device, DeviceError};
use kdcfile_store::PagedStore;
use kdcs_types::Acts;
use std::alloc::Global;

/// Sends the lines of a report. The file stays as it is.
pub(crate) fn send<D: Device>(
    alloc: Global,
    device: &mut D,
    store: &mut PagedStore,
    report: &Acts,
) -> Result<(), DeviceError>
    requires kept { IsTrue (D.state device.old).told → IsKept (HasFile store.old) (D.state device.old) (D.leaves device.old) }
    requires lines { commits_nothing report.now ≡ true }
    ensures any { (i : Identity) (t : TableRows) → KeepsTables i store.old t → WithinActs tables_after (StandsForTables i) t report.now (D.state device.old) (D.state device.new) (D.leaves device.old) (D.leaves device.new) }
    ensures done { OnOk result ((i : Identity) (t : TableRows) → KeepsTables i store.old t → IsTrue (D.state device.old).told → IsReported i t report.now (D.state device.old) (D.state device.new) (D.leaves device.new)) }
    ensures put { IsTrue (D.state device.old).told → WritesUpTo (λ acts. 0) report.now (D.state device.old) (D.state device.new) }
    ensures fine { (IsErrOf result DeviceError.Failed → ⊥) → SameFaults (D.state device.old) (D.state device.new) }
    ensures failed { IsErrOf result DeviceError.Failed → Rose (D.state device.old).disk_faults (D.state device.new).disk_faults ⊎ Rose (D.state device.old).line_faults (D.state device.new).line_faults }
{
    do_acts(alloc, device, store, report.as_slice())
}
