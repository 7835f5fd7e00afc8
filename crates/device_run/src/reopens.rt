//! What keeps a content, and can give up all memory of it and open its files again.
ghost use Rattle.std.specs.Prelude.{◌≡◌, ◌≤◌, ℕ, List, IsTrue, IfOk, OnOk, IsErrOf};
ghost use Rattle.kd_device.specs.Device.{Rose, Frame, SameNames};
ghost use Rattle.kd_records.specs.{Identity.{Identity}, declared.content.Content.{Content}, declared.content.Patch.{Patch}};
ghost use Rattle.kdcfile_layout.specs.Bound.{write_bound};
ghost use Rattle.kdcs_types.specs.Tables.{TableRows};
ghost use Rattle.device_acts.specs.Acting.{IsKeptBy};
ghost use Rattle.device_run.specs.{Keeping.{KeepsSuited, Reopening}, SingleLaws.{single_bound}};

use application_types::generation::Generation;
use device_acts::warm_start::{OpenError, answers_exclude_each_other, open_tables};
use device_acts::{Keeper, SingleFile};
use kd_device::Device;
use kdcfile_store::PagedStore;
use kdcs_types::Tables;
use std::alloc::Global;

/// A keeper whose files can be opened again.
pub trait Reopens: Keeper {
    /// How many bytes a commit writes at most, in files that were made with this, whatever they keep.
    ghost commit_most: { Identity → Patch → ℕ };

    /// Opens its files again, for this generation and the texts with this fingerprint, and answers the tables that they
    /// keep. Nothing is sent. Where the files keep tables that suit, it refuses nothing.
    fn reopen(
        &mut self,
        alloc: Global,
        generation: &Generation,
        fingerprint: &[u8; 32],
    ) -> Result<Tables, OpenError>
        requires ready { Self.ready self.old }
        requires kept { IsTrue (Self.state self.old).told → IsKeptBy (Self.file self.old) (Self.state self.old) (Self.leaves self.old) }
        ensures ready { OnOk result (Self.ready self.new) }
        ensures tables { IfOk result (λ t. KeepsSuited generation.now fingerprint.now (Self.identity self.new) (Self.kept self.new) t) }
        ensures same { IfOk result (λ t. IsTrue (Self.state self.old).told → (u : TableRows) → KeepsSuited generation.now fingerprint.now (Self.identity self.old) (Self.kept self.old) u → t ≡ u) }
        ensures kept { OnOk result (IsTrue (Self.state self.old).told → IsKeptBy (Self.file self.new) (Self.state self.new) (Self.leaves self.new)) }
        ensures refused { IsErrOf result OpenError.NotKdcfile → IsTrue (Self.state self.old).told → (u : TableRows) → KeepsSuited generation.now fingerprint.now (Self.identity self.old) (Self.kept self.old) u → ⊥ }
        ensures other { (stored : List ℕ) → IsErrOf result (OpenError.OtherGeneration stored) → IsTrue (Self.state self.old).told → (u : TableRows) → KeepsSuited generation.now fingerprint.now (Self.identity self.old) (Self.kept self.old) u → ⊥ }

        // A stop at any moment of the call leaves what was kept before it.
        ensures still { IsTrue (Self.state self.old).told → (u : TableRows) → KeepsSuited generation.now fingerprint.now (Self.identity self.old) (Self.kept self.old) u → Reopening (Self.stands (Self.identity self.old) (Self.kept self.old)) (Self.state self.old) (Self.state self.new) (Self.leaves self.old) (Self.leaves self.new) }

        ensures failed { IsErrOf result OpenError.Failed → Rose (Self.state self.old).disk_faults (Self.state self.new).disk_faults }
        ensures fine { (IsErrOf result OpenError.Failed → ⊥) → Self.fine (Self.state self.old) (Self.state self.new) }
        ensures frame { Frame (Self.state self.old) (Self.state self.new) }
        ensures names { SameNames (Self.state self.old) (Self.state self.new) }
        ensures place { Self.place self.new ≡ Self.place self.old };

    /// The bound of a commit holds whatever is kept.
    ghost commit_bounded: { (i : Identity) (x : Content) (patch : Patch) → Self.most_written i x patch ≤ commit_most i patch };
}

impl<D: Device> Reopens for SingleFile<'_, D, PagedStore> {
    ghost commit_most = { write_bound };

    fn reopen(
        &mut self,
        alloc: Global,
        generation: &Generation,
        fingerprint: &[u8; 32],
    ) -> Result<Tables, OpenError> {
        answers_exclude_each_other();
        let (opened, tables) = open_tables(alloc, self.device, generation, fingerprint)?;
        *self.store = opened;
        Ok(tables)
    }

    ghost commit_bounded = { single_bound };
}
