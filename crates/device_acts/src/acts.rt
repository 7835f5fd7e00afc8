//! Acts: commits to the store, and lines that are sent, in their order.
ghost use Rattle.std.specs.Prelude.{◌≡◌, ◌⊎◌, ◌∷◌, [], IsTrue, OnOk, IsErrOf};
ghost use Rattle.kd_device.specs.Device.{Rose, SameFaults};
ghost use Rattle.kdcfile_store.specs.Kept.{IsKept};
ghost use Rattle.device_acts.specs.Acting.{acts_most, content_after, AreCommittable, IsKeptBy, LineOrDisk, DidActs, WithinActs, WritesUpTo, WritesWithin, Sent};

use crate::keeper::Keeper;
use crate::single::SingleFile;
use kd_device::{Device, DeviceError};
use kdcfile_store::Store;
use kdcs_types::Act;
use record_codec::difference;
use std::alloc::Global;

/// One act: a commit, whole or absent, or a line.
fn do_act<K: Keeper>(alloc: Global, keeper: &mut K, act: &Act) -> Result<(), DeviceError>
    requires ready { K.ready keeper.old }
    requires kept { IsTrue (K.state keeper.old).told → IsKeptBy (K.file keeper.old) (K.state keeper.old) (K.leaves keeper.old) }
    requires can { AreCommittable (K.identity keeper.old) (K.kept keeper.old) (act.now ∷ []) }
    ensures ready { OnOk result (K.ready keeper.new) }
    ensures identity { K.identity keeper.new ≡ K.identity keeper.old }
    ensures any { WithinActs content_after (K.stands (K.identity keeper.old)) (K.kept keeper.old) (act.now ∷ []) (K.state keeper.old) (K.state keeper.new) (K.leaves keeper.old) (K.leaves keeper.new) }
    ensures content { OnOk result (K.kept keeper.new ≡ content_after (K.kept keeper.old) (act.now ∷ [])) }
    ensures done { OnOk result (DidActs K.fine (K.file keeper.new) (act.now ∷ []) (K.state keeper.old) (K.state keeper.new) (K.leaves keeper.new)) }
    ensures put { WritesWithin content_after (K.stands (K.identity keeper.old)) (K.kept keeper.old) (acts_most K.most_written (K.identity keeper.old) (K.kept keeper.old)) (act.now ∷ []) (K.state keeper.old) (K.state keeper.new) (K.leaves keeper.new) }
    ensures fine { (IsErrOf result DeviceError.Failed → ⊥) → K.fine (K.state keeper.old) (K.state keeper.new) }
    ensures failed { IsErrOf result DeviceError.Failed → Rose (K.state keeper.old).disk_faults (K.state keeper.new).disk_faults ⊎ Rose (K.state keeper.old).line_faults (K.state keeper.new).line_faults }
    ensures halted { IsErrOf result DeviceError.Failed → LineOrDisk (act.now ∷ []) (K.state keeper.old) (K.state keeper.new) }
    ensures place { K.place keeper.new ≡ K.place keeper.old }
{
    match act {
        Act::Commit(changes) => {
            let patch = difference(alloc, changes)?;
            keeper.commit(alloc, &patch)?;
            Ok(())
        }
        Act::Emit(line) => keeper.say(line.as_slice()),
    }
}

/// Acts in their order, which the keeper can take. At a stop, and at an error, what was sent and what the files stand for
/// are a cut of them. A commit writes at most its bound, and a line nothing; no commit writes that was not begun.
pub fn keep_acts<K: Keeper>(alloc: Global, keeper: &mut K, acts: &[Act]) -> Result<(), DeviceError>
    requires ready { K.ready keeper.old }
    requires kept { IsTrue (K.state keeper.old).told → IsKeptBy (K.file keeper.old) (K.state keeper.old) (K.leaves keeper.old) }
    requires can { AreCommittable (K.identity keeper.old) (K.kept keeper.old) acts.now }
    ensures ready { OnOk result (K.ready keeper.new) }
    ensures identity { K.identity keeper.new ≡ K.identity keeper.old }
    ensures any { WithinActs content_after (K.stands (K.identity keeper.old)) (K.kept keeper.old) acts.now (K.state keeper.old) (K.state keeper.new) (K.leaves keeper.old) (K.leaves keeper.new) }
    ensures content { OnOk result (K.kept keeper.new ≡ content_after (K.kept keeper.old) acts.now) }
    ensures done { OnOk result (DidActs K.fine (K.file keeper.new) acts.now (K.state keeper.old) (K.state keeper.new) (K.leaves keeper.new)) }
    ensures put { WritesWithin content_after (K.stands (K.identity keeper.old)) (K.kept keeper.old) (acts_most K.most_written (K.identity keeper.old) (K.kept keeper.old)) acts.now (K.state keeper.old) (K.state keeper.new) (K.leaves keeper.new) }
    ensures fine { (IsErrOf result DeviceError.Failed → ⊥) → K.fine (K.state keeper.old) (K.state keeper.new) }
    ensures failed { IsErrOf result DeviceError.Failed → Rose (K.state keeper.old).disk_faults (K.state keeper.new).disk_faults ⊎ Rose (K.state keeper.old).line_faults (K.state keeper.new).line_faults }
    ensures halted { IsErrOf result DeviceError.Failed → LineOrDisk acts.now (K.state keeper.old) (K.state keeper.new) }
    ensures place { K.place keeper.new ≡ K.place keeper.old }
{
    for act in acts {
        do_act(alloc, keeper, act)?;
    }
    Ok(())
}

/// Acts in their order, which the store can take. At a stop, and at an error, what was sent and what the file stands for
/// are a cut of them. A commit writes at most its bound, and a line nothing.
pub fn do_acts<D: Device, S: Store<D>>(
    alloc: Global,
    device: &mut D,
    store: &mut S,
    acts: &[Act],
) -> Result<(), DeviceError>
    requires kept { IsTrue (D.state device.old).told → IsKept (S.file store.old) (D.state device.old) (D.leaves device.old) }
    requires can { AreCommittable (S.identity store.old) (S.kept store.old) acts.now }
    ensures identity { S.identity store.new ≡ S.identity store.old }
    ensures any { WithinActs content_after (S.stands (S.identity store.old)) (S.kept store.old) acts.now (D.state device.old) (D.state device.new) (D.leaves device.old) (D.leaves device.new) }
    ensures content { OnOk result (S.kept store.new ≡ content_after (S.kept store.old) acts.now) }
    ensures done { OnOk result (Sent (S.file store.new) acts.now (D.state device.old) (D.state device.new) (D.leaves device.new)) }
    ensures put { IsTrue (D.state device.old).told → WritesUpTo (acts_most S.most_written (S.identity store.old) (S.kept store.old)) acts.now (D.state device.old) (D.state device.new) }
    ensures fine { (IsErrOf result DeviceError.Failed → ⊥) → SameFaults (D.state device.old) (D.state device.new) }
    ensures failed { IsErrOf result DeviceError.Failed → Rose (D.state device.old).disk_faults (D.state device.new).disk_faults ⊎ Rose (D.state device.old).line_faults (D.state device.new).line_faults }
{
    let mut keeper = SingleFile { device, store };
    keep_acts(alloc, &mut keeper, acts)
}
