//! When the wait of a service ends.
ghost use Rattle.std.specs.Prelude.{◌≡◌};
ghost use Rattle.kdcs_calls.specs.Stating.{wait_ended};

use abstract_monitor::Happened;
use kdcs_types::ServiceId;
use monitor_parts::area_locks::LockTable;

/// A statement that is done, and PEND KP, end the wait of their service. It takes no memory.
pub(crate) fn end_wait(locks: &mut LockTable, id: ServiceId, happened: &Happened)
    ensures { locks.new ≡ wait_ended locks.old id happened.now }
{
    match happened {
        Happened::Went | Happened::Queued | Happened::Held(_) => locks.end_wait(id),
        Happened::Waited | Happened::Settles(_) | Happened::Breaks(_) | Happened::Returns => {}
    }
}
