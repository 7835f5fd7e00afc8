//! What two files keep is written to an empty file, as a KDCFILE by itself, and read back.
ghost use Rattle.std.specs.Prelude.{◌≡◌, ◌⊎◌, ◌≤◌, ◌+◌, ◌↔◌, ℕ, List, [], true, false, IsTrue, IfOk, OnOk, IsErrOf};
ghost use Rattle.kd_device.specs.{Device.{Rose, Frame, SameFaults, SameNames, Only}, Rest.{Rests}};
ghost use Rattle.kd_records.specs.{Charge.{total_charge}, Contents.{IsContent}};
ghost use Rattle.laws_of_states.specs.Suits.{Suits};
ghost use Rattle.kdcfile_store.specs.{Carried.{carry_most}, Kept.{IsKept}, Paged.{HasFile, made_length}};
ghost use Rattle.device_acts.specs.Stands.{AreTables, StandsForTables, identity_for};
ghost use Rattle.kdcfile_double.specs.{Twice.{FrameBoth, NoneRose}, MakingLaws.{RestsBoth}};
ghost use Rattle.kd_update.specs.declared.error.UpdateError.{UpdateError as Cause};
ghost use Rattle.kdcfile_carry.specs.{Backing.{IsBackedUp, of_disk}, Doing.{RoseOnOne}, Files.{AreFiles, Files, HaveTwoMeanings}, Ways.{AreRefusedAs, AreSpent, MayCarry}, Writing.{WritesBackup, backup_most}};
ghost use Rattle.kdcfile_carry.specs.declared.backing.BackUpError.TheVariants as errors;
ghost use Rattle.kdcfile_carry.specs.declared.error.FilesError.{FilesError as FilesCause};

use crate::error::FilesError;
use crate::finding::find;
use crate::planning::planned;
use application_types::generation::Generation;
use carry_steps::is_empty;
use device_acts::warm_start::limits_of;
use kd_base::OutOfMemory;
use kd_device::{Device, DeviceError, Twin};
use kd_records::Content;
use kdcfile_copies::LoadedCopy;
use kdcfile_double::are_alike;
use kdcfile_load::LoadError;
use kdcfile_store::PagedStore;
use kdcs_types::Tables;
use record_codec::records;
use std::alloc::Global;
use thiserror::Error;

/// Why files were not backed up.
#[derive(Clone, Copy, Debug, PartialEq, Eq, Error)]
pub enum BackUpError {
    /// The files were not found to be such as these texts ask for, or a call on them failed.
    #[error("the files: {0}")]
    Files(FilesError),
    /// They are to be carried to these texts first.
    #[error("files of other texts")]
    OtherTexts,
    /// The file that is to be written has bytes.
    #[error("a file that is not empty")]
    NotEmpty,
    /// A call on the file that is written failed.
    #[error("a device failed")]
    Failed,
    /// What is read of it is not what was written.
    #[error("a file that does not read as it was written")]
    Differs,
    #[error("out of memory")]
    Memory,
}

impl From<OutOfMemory> for BackUpError {
    ghost from_gives = { λ _ e. e ≡ errors.Memory };

    fn from(_: OutOfMemory) -> Self {
        BackUpError::Memory
    }
}

impl From<FilesError> for BackUpError {
    ghost from_gives = { λ e r. r ≡ errors.Files e };

    fn from(e: FilesError) -> Self {
        BackUpError::Files(e)
    }
}

impl From<DeviceError> for BackUpError {
    ghost from_gives = { λ e r. r ≡ of_disk e };

    fn from(e: DeviceError) -> Self {
        match e {
            DeviceError::Failed => BackUpError::Failed,
            DeviceError::Memory => BackUpError::Memory,
        }
    }
}

// Makes the empty file, as these texts ask for one file, and keeps this content in it.
fn write_content<D: Device>(
    alloc: Global,
    device: &mut D,
    generation: &Generation,
    fingerprint: &[u8; 32],
    content: Content,
) -> Result<PagedStore, DeviceError>
    requires empty { IsTrue (D.state device.old).told → (D.state device.old).holds ≡ [] }
    requires at_rest { IsTrue (D.state device.old).told → Only (D.state device.old).holds (D.state device.old) (D.leaves device.old) }
    requires content { IsContent content }
    requires charge { total_charge generation.now.limits.blksize content.items ≤ generation.now.limits.pgpool }
    ensures identity { IfOk result (λ s. s.identity ≡ identity_for generation.now fingerprint.now) }
    ensures content { IfOk result (λ s. s.content ≡ content) }
    ensures kept { IfOk result (λ s. IsTrue (D.state device.old).told → IsKept (HasFile s) (D.state device.new) (D.leaves device.new)) }
    ensures sent { IsTrue (D.state device.old).told → (D.state device.new).sent ≡ (D.state device.old).sent }
    ensures put_most { IsTrue (D.state device.old).told → (D.state device.new).put ≤ (D.state device.old).put + (made_length (identity_for generation.now fingerprint.now) + 1 + carry_most (identity_for generation.now fingerprint.now) content) }
    ensures failed { IsErrOf result DeviceError.Failed → Rose (D.state device.old).disk_faults (D.state device.new).disk_faults }
    ensures fine { (IsErrOf result DeviceError.Failed → ⊥) → SameFaults (D.state device.old) (D.state device.new) }
    ensures frame { Frame (D.state device.old) (D.state device.new) }
    ensures names { SameNames (D.state device.old) (D.state device.new) }
{
    let limits = limits_of(generation);
    let mut store = PagedStore::create(alloc, device, &limits, fingerprint)?;
    store.carry(alloc, device, &limits, fingerprint, content)?;
    Ok(store)
}

// Two files were made with the same, and keep the same.
fn are_same(written: PagedStore, read: PagedStore) -> bool
    ensures { IsTrue result ↔ ((written.identity ≡ read.identity) × (written.content ≡ read.content)) }
{
    let written = LoadedCopy {
        store: written,
        sequence: 0,
    };
    let read = LoadedCopy {
        store: read,
        sequence: 0,
    };
    are_alike(&written, &read)
}

// The file reads as it was written. It stays as it is.
fn read_back<D: Device>(
    alloc: Global,
    device: &mut D,
    written: PagedStore,
) -> Result<(), BackUpError>
    requires kept { IsTrue (D.state device.old).told → IsKept (HasFile written) (D.state device.old) (D.leaves device.old) }
    ensures differs { IsErrOf result BackUpError.Differs → IsTrue (D.state device.old).told → ⊥ }
    ensures told { (IsErrOf result BackUpError.OtherTexts → ⊥) × (IsErrOf result BackUpError.NotEmpty → ⊥) × ((why : FilesCause) → IsErrOf result (BackUpError.Files why) → ⊥) }
    ensures at_rest { IsTrue (D.state device.old).told → Only (D.state device.new).holds (D.state device.new) (D.leaves device.new) }
    ensures rests { IsTrue (D.state device.old).told → Rests (D.state device.old) (D.state device.new) (D.leaves device.old) (D.leaves device.new) }
    ensures failed { IsErrOf result BackUpError.Failed → Rose (D.state device.old).disk_faults (D.state device.new).disk_faults }
    ensures fine { (IsErrOf result BackUpError.Failed → ⊥) → SameFaults (D.state device.old) (D.state device.new) }
    ensures frame { Frame (D.state device.old) (D.state device.new) }
    ensures names { SameNames (D.state device.old) (D.state device.new) }
{
    match PagedStore::load(alloc, device) {
        Ok(read) => {
            if are_same(written, read) {
                Ok(())
            } else {
                Err(BackUpError::Differs)
            }
        }
        Err(LoadError::NotKdcfile) => Err(BackUpError::Differs),
        Err(LoadError::Failed) => Err(BackUpError::Failed),
        Err(LoadError::Memory) => Err(BackUpError::Memory),
    }
}

// Writes these tables to the empty file, as these texts ask for one file, and reads them back.
fn write_down<D: Device>(
    alloc: Global,
    to: &mut D,
    generation: &Generation,
    fingerprint: &[u8; 32],
    tables: &Tables,
) -> Result<(), BackUpError>
    requires tables { AreTables tables.now }
    requires suits { Suits generation.now tables.now }
    ensures stands { OnOk result (IsTrue (D.state to.old).told → StandsForTables (identity_for generation.now fingerprint.now) tables.now (D.state to.new).holds) }
    ensures at_rest { OnOk result (IsTrue (D.state to.old).told → Only (D.state to.new).holds (D.state to.new) (D.leaves to.new)) }
    ensures not_empty { IsErrOf result BackUpError.NotEmpty → IsTrue (D.state to.old).told → (D.state to.old).holds ≡ [] → ⊥ }
    ensures still { IsTrue (D.state to.old).told → ((D.state to.old).holds ≡ [] → ⊥) → Rests (D.state to.old) (D.state to.new) (D.leaves to.old) (D.leaves to.new) }
    ensures differs { IsErrOf result BackUpError.Differs → IsTrue (D.state to.old).told → ⊥ }
    ensures told { (IsErrOf result BackUpError.OtherTexts → ⊥) × ((why : FilesCause) → IsErrOf result (BackUpError.Files why) → ⊥) }
    ensures sent { IsTrue (D.state to.old).told → (D.state to.new).sent ≡ (D.state to.old).sent }
    ensures put_most { IsTrue (D.state to.old).told → ((D.state to.new).put ≡ (D.state to.old).put) ⊎ (((D.state to.old).holds ≡ []) × ((D.state to.new).put ≤ (D.state to.old).put + backup_most generation.now fingerprint.now tables.now)) }
    ensures failed { IsErrOf result BackUpError.Failed → Rose (D.state to.old).disk_faults (D.state to.new).disk_faults }
    ensures fine { (IsErrOf result BackUpError.Failed → ⊥) → SameFaults (D.state to.old) (D.state to.new) }
    ensures frame { Frame (D.state to.old) (D.state to.new) }
    ensures names { SameNames (D.state to.old) (D.state to.new) }
{
    let limits = generation.max();
    let _ = limits; // they have their ranges, so that values are short
    let empty = is_empty(to)?;
    if !empty {
        return Err(BackUpError::NotEmpty);
    }
    let content = records(alloc, tables)?;
    let written = write_content(alloc, to, generation, fingerprint, content)?;
    read_back(alloc, to, written)
}

/// Writes what counts of the two files, which are as these texts ask for them, to the empty file `to`: as one file by
/// itself of these texts, whether they ask for one file or for two. It is read back and compared. The two files stay as they
/// are. If a call fails or a stop comes, `to` may be left empty, unmade or with empty tables: only after `Ok` is it a backup.
/// It is put back as BASE.KDCA beside an empty BASE.KDCB, and `carry_files` makes two copies of it where the texts ask so.
pub fn back_up<T: Twin, D: Device>(
    alloc: Global,
    twin: &mut T,
    to: &mut D,
    generation: &Generation,
    fingerprint: &[u8; 32],
) -> Result<(), BackUpError>
    // The file that was empty stands for the tables of the two files.
    ensures done { OnOk result (IsTrue (T.both twin.old).told → IsTrue (D.state to.old).told → (f : Files) × AreFiles f (T.both twin.old).first.holds (T.both twin.old).second.holds × IsBackedUp generation.now fingerprint.now f (D.state to.new) (D.leaves to.new)) }
    ensures refused { (why : Cause) → IsErrOf result (BackUpError.Files (FilesError.Refused why)) → IsTrue (T.both twin.old).told → AreRefusedAs generation.now fingerprint.now (T.both twin.old).first.holds (T.both twin.old).second.holds why }
    ensures two { IsErrOf result (BackUpError.Files FilesError.TwoMeanings) → IsTrue (T.both twin.old).told → HaveTwoMeanings (T.both twin.old).first.holds (T.both twin.old).second.holds }
    ensures spent { (n : ℕ) → IsErrOf result (BackUpError.Files (FilesError.Spent n)) → IsTrue (T.both twin.old).told → AreSpent generation.now fingerprint.now (T.both twin.old).first.holds (T.both twin.old).second.holds n }
    ensures other { IsErrOf result BackUpError.OtherTexts → IsTrue (T.both twin.old).told → (f : Files) × AreFiles f (T.both twin.old).first.holds (T.both twin.old).second.holds × MayCarry generation.now fingerprint.now f }
    ensures not_empty { IsErrOf result BackUpError.NotEmpty → IsTrue (D.state to.old).told → (D.state to.old).holds ≡ [] → ⊥ }
    ensures differs { IsErrOf result BackUpError.Differs → IsTrue (D.state to.old).told → ⊥ }
    ensures rests { IsTrue (T.both twin.old).told → RestsBoth (T.both twin.old) (T.both twin.new) (T.leaves twin.old) (T.leaves twin.new) }

    // A file that is not empty stays as it is.
    ensures still { IsTrue (D.state to.old).told → ((D.state to.old).holds ≡ [] → ⊥) → (D.state to.new).holds ≡ (D.state to.old).holds }

    // Whatever comes, no more is written than a new file and one commit.
    ensures written { IsTrue (T.both twin.old).told → IsTrue (D.state to.old).told → WritesBackup generation.now fingerprint.now (T.both twin.old).first.holds (T.both twin.old).second.holds (D.state to.old) (D.state to.new) }

    ensures sent { IsTrue (D.state to.old).told → (D.state to.new).sent ≡ (D.state to.old).sent }
    ensures files_failed { IsErrOf result (BackUpError.Files FilesError.Failed) → RoseOnOne (T.both twin.old) (T.both twin.new) }
    ensures files_fine { (IsErrOf result (BackUpError.Files FilesError.Failed) → ⊥) → NoneRose (T.both twin.old) (T.both twin.new) }
    ensures failed { IsErrOf result BackUpError.Failed → Rose (D.state to.old).disk_faults (D.state to.new).disk_faults }
    ensures fine { (IsErrOf result BackUpError.Failed → ⊥) → SameFaults (D.state to.old) (D.state to.new) }
    ensures frame { FrameBoth (T.both twin.old) (T.both twin.new) }
    ensures to_frame { Frame (D.state to.old) (D.state to.new) }
    ensures names { SameNames (D.state to.old) (D.state to.new) }
{
    let kept = find(alloc, twin)?;
    match planned(alloc, generation, fingerprint, &kept)? {
        Some(_) => Err(BackUpError::OtherTexts),
        None => write_down(alloc, to, generation, fingerprint, &kept.tables),
    }
}
