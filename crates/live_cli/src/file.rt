//! Typed lines over the KDCFILE.
ghost use Rattle.std.specs.Prelude.{◌≡◌, ◌⊎◌, ◌++◌, ◌∷◌, [], List, ℕ, IsTrue, OnOk, IsErrOf};
ghost use Rattle.kd_device.specs.{Device.{Frame, Only, Rose, SameFaults, SameNames}, Rest.{Rests}};
ghost use Rattle.kdcfile_store.specs.{Kept.{IsKept}, Paged.{HasFile}};
ghost use Rattle.kdcs_types.specs.Tables.{TableRows};
ghost use Rattle.application_types.specs.Fitted.{IsFit};
ghost use Rattle.laws_of_states.specs.Suits.{Suits};
ghost use Rattle.device_acts.specs.Stands.{KeepsTables};
ghost use Rattle.device_acts.specs.Opening.{IsOfOtherTexts, IsRefused};
ghost use Rattle.device_run.specs.Running.{IsRunning};
ghost use Rattle.call_parts.specs.Asking.{gen_errand};
ghost use Rattle.call_parts.specs.Leaving.{CallFailed, MayAttach};
ghost use Rattle.call_parts.specs.Opening.{Opens, identity_of};
ghost use Rattle.live_run.specs.Typing.{SameTyping};
ghost use Rattle.live_cli.specs.{Ends.{EndsLive}, Living.{LivedAnswering, LivedFrom, LivedOver}};

use application_read::Application;
use call_parts::{Work, open};
use device_acts::SingleFile;
use device_acts::warm_start::answers_exclude_each_other;
use kd_device::Device;
use kdcfile_store::PagedStore;
use kdcs_types::Tables;
use live_run::{LiveError, Typing, live_with};
use monitor_core::Core;
use refusals::{FileRefusal, Status, named, refuse_file};
use std::alloc::Global;

/// Performs what is typed, from a core whose durable tables the store keeps; its file was made with this fingerprint.
fn live_over_store<D: Device, I: Typing>(
    alloc: Global,
    device: &mut D,
    mut store: PagedStore,
    typing: &mut I,
    core: Core,
    fingerprint: &[u8; 32],
) -> Result<(), LiveError>
    requires running { IsRunning fingerprint.now core store }
    requires kept { IsTrue (D.state device.old).told → IsKept (HasFile store) (D.state device.old) (D.leaves device.old) }
    ensures lived { IsTrue (D.state device.old).told → LivedOver fingerprint.now core (I.typing typing.old) (D.state device.old) (D.state device.new) (D.leaves device.old) (D.leaves device.new) result }
    ensures frame { Frame (D.state device.old) (D.state device.new) }
    ensures names { SameNames (D.state device.old) (D.state device.new) }
    ensures typing { SameTyping (I.typing typing.old) (I.typing typing.new) }
    ensures input { IsErrOf result LiveError.Input → Rose (I.typing typing.old).faults (I.typing typing.new).faults }
    ensures heard { (IsErrOf result LiveError.Input → ⊥) → (I.typing typing.new).faults ≡ (I.typing typing.old).faults }
    ensures fine { (IsErrOf result LiveError.Failed → ⊥) → SameFaults (D.state device.old) (D.state device.new) }
    ensures failed { IsErrOf result LiveError.Failed → CallFailed (D.state device.old) (D.state device.new) }
    ensures refused { IsErrOf result LiveError.NotKdcfile → IsTrue (D.state device.old).told → ⊥ }
    ensures other { (stored : List ℕ) → IsErrOf result (LiveError.OtherGeneration stored) → IsTrue (D.state device.old).told → ⊥ }
{
    let mut keeper = SingleFile {
        device,
        store: &mut store,
    };
    live_with(alloc, &mut keeper, typing, core, fingerprint)
}

/// Performs what is typed, from the tables that an opened store keeps.
fn live_from<D: Device, I: Typing>(
    alloc: Global,
    device: &mut D,
    store: PagedStore,
    tables: Tables,
    work: Work,
    typing: &mut I,
) -> Result<(), LiveError>
    requires fit { IsFit work.application.generation work.application.units }
    requires tables { KeepsTables (identity_of (gen_errand work)) store tables }
    requires suits { Suits work.application.generation tables }
    requires kept { IsTrue (D.state device.old).told → IsKept (HasFile store) (D.state device.old) (D.leaves device.old) }
    ensures lived { IsTrue (D.state device.old).told → LivedFrom (gen_errand work) tables (I.typing typing.old) (D.state device.old) (D.state device.new) (D.leaves device.old) (D.leaves device.new) result }
    ensures frame { Frame (D.state device.old) (D.state device.new) }
    ensures names { SameNames (D.state device.old) (D.state device.new) }
    ensures typing { SameTyping (I.typing typing.old) (I.typing typing.new) }
    ensures input { IsErrOf result LiveError.Input → Rose (I.typing typing.old).faults (I.typing typing.new).faults }
    ensures heard { (IsErrOf result LiveError.Input → ⊥) → (I.typing typing.new).faults ≡ (I.typing typing.old).faults }
    ensures fine { (IsErrOf result LiveError.Failed → ⊥) → SameFaults (D.state device.old) (D.state device.new) }
    ensures failed { IsErrOf result LiveError.Failed → CallFailed (D.state device.old) (D.state device.new) }
    ensures refused { IsErrOf result LiveError.NotKdcfile → IsTrue (D.state device.old).told → ⊥ }
    ensures other { (stored : List ℕ) → IsErrOf result (LiveError.OtherGeneration stored) → IsTrue (D.state device.old).told → ⊥ }
{
    let Work {
        application,
        fingerprint,
    } = work;
    let Application { generation, units } = application;
    let core = Core::start(alloc, generation, units, tables)?;
    live_over_store(alloc, device, store, typing, core, &fingerprint)
}

/// Attaches the file of this name, opens it, and performs what is typed. An empty file is made first.
fn live_file<D: Device, I: Typing>(
    alloc: Global,
    device: &mut D,
    name: &[u8],
    work: Work,
    typing: &mut I,
) -> Result<(), LiveError>
    requires fit { IsFit work.application.generation work.application.units }
    ensures lived { IsTrue (D.state device.old).told → Only (D.state device.old).holds (D.state device.old) (D.leaves device.old) → (t : TableRows) → Opens (gen_errand work) (D.state device.old).holds t → LivedAnswering result (gen_errand work) t (I.typing typing.old) (D.state device.old) (D.state device.new) (D.leaves device.new) }
    ensures opened { OnOk result (IsTrue (D.state device.old).told → (t : TableRows) × Opens (gen_errand work) (D.state device.old).holds t) }
    ensures refused { IsErrOf result LiveError.NotKdcfile → IsTrue (D.state device.old).told → IsRefused work.application.generation work.fingerprint (D.state device.old).holds }
    ensures other { (stored : List ℕ) → IsErrOf result (LiveError.OtherGeneration stored) → IsTrue (D.state device.old).told → IsOfOtherTexts stored work.fingerprint (D.state device.old).holds }

    // A file that is not opened stays as it is, and nothing is sent.
    ensures still { IsTrue (D.state device.old).told → ((t : TableRows) → Opens (gen_errand work) (D.state device.old).holds t → ⊥) → Rests (D.state device.old) (D.state device.new) (D.leaves device.old) (D.leaves device.new) }

    ensures frame { Frame (D.state device.old) (D.state device.new) }
    ensures names { IsTrue (D.state device.old).told → MayAttach name.now (D.state device.old) (D.state device.new) }
    ensures named { OnOk result (IsTrue (D.state device.old).told → (D.state device.new).names ≡ (D.state device.old).names ++ name.now ∷ []) }
    ensures typing { SameTyping (I.typing typing.old) (I.typing typing.new) }
    ensures input { IsErrOf result LiveError.Input → Rose (I.typing typing.old).faults (I.typing typing.new).faults }
    ensures heard { (IsErrOf result LiveError.Input → ⊥) → (I.typing typing.new).faults ≡ (I.typing typing.old).faults }
    ensures fine { (IsErrOf result LiveError.Failed → ⊥) → SameFaults (D.state device.old) (D.state device.new) }
    ensures failed { IsErrOf result LiveError.Failed → CallFailed (D.state device.old) (D.state device.new) }
{
    let generation = &work.application.generation;
    let (store, tables) = open(alloc, device, name, generation, &work.fingerprint)?;
    live_from(alloc, device, store, tables, work, typing)
}

/// Performs what is typed over the KDCFILE of this BASE, which is made where it is empty.
pub(crate) fn live_over<D: Device, I: Typing>(
    alloc: Global,
    device: &mut D,
    base: &[u8],
    work: Work,
    typing: &mut I,
) -> Status
    requires fit { IsFit work.application.generation work.application.units }
    ensures { EndsLive (gen_errand work) base.now (I.typing typing.old) (I.typing typing.new) (D.state device.old) (D.state device.new) (D.leaves device.old) (D.leaves device.new) result.code }
{
    answers_exclude_each_other();
    let Ok(name) = named(alloc, base, b".KDCA") else {
        return Status::MEMORY;
    };
    match live_file(alloc, device, &name, work, typing) {
        Ok(()) => Status::DONE,
        Err(LiveError::Failed) => Status::DEVICE,
        Err(LiveError::Input) => Status::DEVICE,
        Err(LiveError::Memory) => Status::MEMORY,
        Err(LiveError::Spent) => Status::MEMORY,
        Err(LiveError::NotKdcfile) => { refuse_file(alloc, device, &FileRefusal::NotKdcfile) }
        Err(LiveError::OtherGeneration(stored)) => {
            refuse_file(alloc, device, &FileRefusal::OtherGeneration(stored))
        }
    }
}
