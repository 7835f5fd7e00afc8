//! The KDCFILE is made where it is empty, and else opened warm; or its tables are read, and it stays as it is.
ghost use Rattle.std.specs.Prelude.{◌≡◌, ◌≤◌, ◌+◌, [], List, ℕ, IsTrue, length, IfOk, OnOk, IsErrOf};
ghost use Rattle.kd_device.specs.{Device.{State, Rose, Frame, SameFaults, SameNames, Only}, Rest.{Rests}};
ghost use Rattle.kd_records.specs.{Charge.{total_charge}, Contents.{IsContent}, Identity.{IsIdentity}};
ghost use Rattle.application_types.specs.Soundness.{AreLimits};
ghost use Rattle.application_types.specs.Statements.{IsBlksize, IsWithin};
ghost use Rattle.kdcs_types.specs.Tables.{empty_tables};
ghost use Rattle.kdcfile_store.specs.{Kept.{IsKept}, Paged.{HasFile, LeavesMade, made_length}};
ghost use Rattle.laws_of_states.specs.Suits.{Suits};
ghost use Rattle.device_acts.specs.{Stands.{AreTables, KeepsTables, StandsForNoTables, StandsForTables, identity_for, limits_of}, Kept.{KeepsNoneFor, KeepsOthers}};
ghost use Rattle.device_acts.specs.Opening.{StartsFrom, HasNoTablesFor, IsRefused, IsOfOtherTexts, LeavesOpening, opening_most};

use crate::warm_start::error::OpenError;
use application_types::generation::Generation;
use kd_device::{Device, DeviceError};
use kdcfile_store::{PagedStore, StoreLimits};
use kdcs_types::Tables;
use record_codec::tables_of;
use std::alloc::Global;
use table_fit::suits;

/// The length of the file. Nothing is pending then.
fn size_at_rest<D: Device>(device: &mut D) -> Result<u64, DeviceError>
    ensures size { IfOk result (λ n. IsTrue (D.state device.old).told → n ≡ length (D.state device.old).holds) }
    ensures at_rest { OnOk result (IsTrue (D.state device.old).told → Only (D.state device.new).holds (D.state device.new) (D.leaves device.new)) }
    ensures rests { IsTrue (D.state device.old).told → Rests (D.state device.old) (D.state device.new) (D.leaves device.old) (D.leaves device.new) }
    ensures failed { IsErrOf result DeviceError.Failed → Rose (D.state device.old).disk_faults (D.state device.new).disk_faults }
    ensures fine { (IsErrOf result DeviceError.Failed → ⊥) → SameFaults (D.state device.old) (D.state device.new) }
    ensures frame { Frame (D.state device.old) (D.state device.new) }
    ensures names { SameNames (D.state device.old) (D.state device.new) }
{
    device.reserve(1, 0, 0)?;
    device.sync()?;
    Ok(device.size()?)
}

/// BLKSIZE and PGPOOL of the generation.
pub fn limits_of(generation: &Generation) -> StoreLimits
    ensures limits { result ≡ limits_of generation.now }
    ensures sound { AreLimits generation.now.limits }
    ensures blksize { IsBlksize result.blksize }
    ensures pgpool { IsWithin 16 30000 result.pgpool }
{
    let max = generation.max();
    StoreLimits {
        blksize: max.blksize,
        pgpool: max.pgpool,
    }
}

/// The tables that a store keeps, where they are of the texts with this fingerprint and suit the generation.
pub fn tables_in(
    alloc: Global,
    store: &PagedStore,
    generation: &Generation,
    fingerprint: &[u8; 32],
) -> Result<Tables, OpenError>
    ensures tables { IfOk result (λ t. KeepsTables (identity_for generation.now fingerprint.now) store.now t) }
    ensures suits { IfOk result (λ t. Suits generation.now t) }
    ensures refused { IsErrOf result OpenError.NotKdcfile → KeepsNoneFor generation.now fingerprint.now store.now }
    ensures other { (stored : List ℕ) → IsErrOf result (OpenError.OtherGeneration stored) → KeepsOthers stored fingerprint.now store.now }
    ensures never { IsErrOf result OpenError.Failed → ⊥ }
{
    let Some(tables) = tables_of(alloc, store.kept())? else {
        return Err(OpenError::NotKdcfile);
    };
    let stored = *store.fingerprint();
    if stored != *fingerprint {
        return Err(OpenError::OtherGeneration(stored));
    }
    let limits = store.limits();
    if !suits(generation, &tables, limits.blksize, limits.pgpool) {
        return Err(OpenError::NotKdcfile);
    }
    Ok(tables)
}

/// Makes the empty file, with the empty tables.
fn make<D: Device>(
    alloc: Global,
    device: &mut D,
    generation: &Generation,
    fingerprint: &[u8; 32],
) -> Result<(PagedStore, Tables), OpenError>
    requires empty { IsTrue (D.state device.old).told → (D.state device.old).holds ≡ [] }
    requires at_rest { IsTrue (D.state device.old).told → Only (D.state device.old).holds (D.state device.old) (D.leaves device.old) }
    ensures empty { IfOk result (λ o. o.1 ≡ empty_tables) }
    ensures tables { IfOk result (λ o. KeepsTables (identity_for generation.now fingerprint.now) o.0 o.1) }
    ensures suits { IfOk result (λ o. Suits generation.now o.1) }
    ensures kept { IfOk result (λ o. IsTrue (D.state device.old).told → IsKept (HasFile o.0) (D.state device.new) (D.leaves device.new)) }
    ensures sent { IsTrue (D.state device.old).told → (D.state device.new).sent ≡ (D.state device.old).sent }
    ensures any_moment { IsTrue (D.state device.old).told → LeavesMade (identity_for generation.now fingerprint.now) (D.state device.old) (D.state device.new) (D.leaves device.old) (D.leaves device.new) }
    ensures put_most { IsTrue (D.state device.old).told → (D.state device.new).put ≤ (D.state device.old).put + made_length (identity_for generation.now fingerprint.now) + 1 }
    ensures refused { IsErrOf result OpenError.NotKdcfile → ⊥ }
    ensures other { (stored : List ℕ) → IsErrOf result (OpenError.OtherGeneration stored) → ⊥ }
    ensures failed { IsErrOf result OpenError.Failed → Rose (D.state device.old).disk_faults (D.state device.new).disk_faults }
    ensures memory { IsErrOf result OpenError.Memory → IsTrue (D.state device.old).told → Rests (D.state device.old) (D.state device.new) (D.leaves device.old) (D.leaves device.new) }
    ensures fine { (IsErrOf result OpenError.Failed → ⊥) → SameFaults (D.state device.old) (D.state device.new) }
    ensures frame { Frame (D.state device.old) (D.state device.new) }
    ensures names { SameNames (D.state device.old) (D.state device.new) }
{
    let limits = limits_of(generation);
    let store = PagedStore::create(alloc, device, &limits, fingerprint)?;
    Ok((store, Tables::empty(alloc)))
}

/// Opens the file that is there.
fn warm<D: Device>(
    alloc: Global,
    device: &mut D,
    generation: &Generation,
    fingerprint: &[u8; 32],
) -> Result<(PagedStore, Tables), OpenError>
    ensures tables { IfOk result (λ o. KeepsTables (identity_for generation.now fingerprint.now) o.0 o.1) }
    ensures suits { IfOk result (λ o. Suits generation.now o.1) }
    ensures stands { IfOk result (λ o. IsTrue (D.state device.old).told → StandsForTables (identity_for generation.now fingerprint.now) o.1 (D.state device.old).holds) }
    ensures kept { IfOk result (λ o. IsTrue (D.state device.old).told → IsKept (HasFile o.0) (D.state device.new) (D.leaves device.new)) }
    ensures refused { IsErrOf result OpenError.NotKdcfile → IsTrue (D.state device.old).told → HasNoTablesFor generation.now fingerprint.now (D.state device.old).holds }
    ensures other { (stored : List ℕ) → IsErrOf result (OpenError.OtherGeneration stored) → IsTrue (D.state device.old).told → IsOfOtherTexts stored fingerprint.now (D.state device.old).holds }
    ensures rests { IsTrue (D.state device.old).told → Rests (D.state device.old) (D.state device.new) (D.leaves device.old) (D.leaves device.new) }
    ensures failed { IsErrOf result OpenError.Failed → Rose (D.state device.old).disk_faults (D.state device.new).disk_faults }
    ensures fine { (IsErrOf result OpenError.Failed → ⊥) → SameFaults (D.state device.old) (D.state device.new) }
    ensures frame { Frame (D.state device.old) (D.state device.new) }
    ensures names { SameNames (D.state device.old) (D.state device.new) }
{
    let store = PagedStore::load(alloc, device)?;
    let tables = tables_in(alloc, &store, generation, fingerprint)?;
    Ok((store, tables))
}

/// Opens the KDCFILE that the device has: makes it for this generation and the texts with this fingerprint where it is
/// empty, and else starts warm from the tables that it keeps. That its bytes stand for tables is tested first, then the
/// fingerprint, then whether the tables suit.
pub fn open_tables<D: Device>(
    alloc: Global,
    device: &mut D,
    generation: &Generation,
    fingerprint: &[u8; 32],
) -> Result<(PagedStore, Tables), OpenError>
    ensures tables { IfOk result (λ o. KeepsTables (identity_for generation.now fingerprint.now) o.0 o.1) }
    ensures suits { IfOk result (λ o. Suits generation.now o.1) }

    // There are pages for what the store keeps, as a commit asks.
    ensures fits { IfOk result (λ o. total_charge o.0.identity.blksize o.0.content.items ≤ o.0.identity.pages) }

    ensures starts { IfOk result (λ o. IsTrue (D.state device.old).told → StartsFrom generation.now fingerprint.now (D.state device.old).holds o.1) }
    ensures kept { IfOk result (λ o. IsTrue (D.state device.old).told → IsKept (HasFile o.0) (D.state device.new) (D.leaves device.new)) }
    ensures refused { IsErrOf result OpenError.NotKdcfile → IsTrue (D.state device.old).told → IsRefused generation.now fingerprint.now (D.state device.old).holds }
    ensures other { (stored : List ℕ) → IsErrOf result (OpenError.OtherGeneration stored) → IsTrue (D.state device.old).told → IsOfOtherTexts stored fingerprint.now (D.state device.old).holds }

    // A file that is not empty stays as it is.
    ensures still { IsTrue (D.state device.old).told → ((D.state device.old).holds ≡ [] → ⊥) → Rests (D.state device.old) (D.state device.new) (D.leaves device.old) (D.leaves device.new) }
    ensures sent { IsTrue (D.state device.old).told → (D.state device.new).sent ≡ (D.state device.old).sent }
    ensures any_moment { IsTrue (D.state device.old).told → LeavesOpening (identity_for generation.now fingerprint.now) (D.state device.old) (D.state device.new) (D.leaves device.old) (D.leaves device.new) }
    ensures put_most { IsTrue (D.state device.old).told → (D.state device.new).put ≤ (D.state device.old).put + opening_most (identity_for generation.now fingerprint.now) (D.state device.old).holds }

    // Where memory runs out, an empty file stays too.
    ensures memory { IsErrOf result OpenError.Memory → IsTrue (D.state device.old).told → Rests (D.state device.old) (D.state device.new) (D.leaves device.old) (D.leaves device.new) }

    ensures failed { IsErrOf result OpenError.Failed → Rose (D.state device.old).disk_faults (D.state device.new).disk_faults }
    ensures fine { (IsErrOf result OpenError.Failed → ⊥) → SameFaults (D.state device.old) (D.state device.new) }
    ensures frame { Frame (D.state device.old) (D.state device.new) }
    ensures names { SameNames (D.state device.old) (D.state device.new) }
{
    let size = size_at_rest(device)?;
    if size == 0 {
        make(alloc, device, generation, fingerprint)
    } else {
        warm(alloc, device, generation, fingerprint)
    }
}

/// Opens the KDCFILE that the device has, whatever the texts that it was made with. Bytes that stand for no tables,
/// empty ones too, are refused. The file stays as it is.
pub fn open_any<D: Device>(alloc: Global, device: &mut D) -> Result<(PagedStore, Tables), OpenError>
    ensures tables { IfOk result (λ o. KeepsTables o.0.identity o.0 o.1) }
    ensures identity { IfOk result (λ o. IsIdentity o.0.identity) }
    ensures content { IfOk result (λ o. IsContent o.0.content) }
    ensures stands { IfOk result (λ o. IsTrue (D.state device.old).told → StandsForTables o.0.identity o.1 (D.state device.old).holds) }
    ensures kept { IfOk result (λ o. IsTrue (D.state device.old).told → IsKept (HasFile o.0) (D.state device.new) (D.leaves device.new)) }
    ensures refused { IsErrOf result OpenError.NotKdcfile → IsTrue (D.state device.old).told → StandsForNoTables (D.state device.old).holds }
    ensures other { (stored : List ℕ) → IsErrOf result (OpenError.OtherGeneration stored) → ⊥ }
    ensures rests { IsTrue (D.state device.old).told → Rests (D.state device.old) (D.state device.new) (D.leaves device.old) (D.leaves device.new) }
    ensures failed { IsErrOf result OpenError.Failed → Rose (D.state device.old).disk_faults (D.state device.new).disk_faults }
    ensures fine { (IsErrOf result OpenError.Failed → ⊥) → SameFaults (D.state device.old) (D.state device.new) }
    ensures frame { Frame (D.state device.old) (D.state device.new) }
    ensures names { SameNames (D.state device.old) (D.state device.new) }
{
    let store = PagedStore::load(alloc, device)?;
    match tables_of(alloc, store.kept())? {
        Some(tables) => Ok((store, tables)),
        None => Err(OpenError::NotKdcfile),
    }
}

/// The tables that an application starts from with the KDCFILE that the device has: the empty ones where it is empty.
/// Nothing is made or written. The tests come in the order of `open_tables`.
pub fn read_tables<D: Device>(
    alloc: Global,
    device: &mut D,
    generation: &Generation,
    fingerprint: &[u8; 32],
) -> Result<Tables, OpenError>
    ensures tables { IfOk result (λ t. AreTables t) }
    ensures suits { IfOk result (λ t. Suits generation.now t) }
    ensures starts { IfOk result (λ t. IsTrue (D.state device.old).told → StartsFrom generation.now fingerprint.now (D.state device.old).holds t) }
    ensures refused { IsErrOf result OpenError.NotKdcfile → IsTrue (D.state device.old).told → IsRefused generation.now fingerprint.now (D.state device.old).holds }
    ensures other { (stored : List ℕ) → IsErrOf result (OpenError.OtherGeneration stored) → IsTrue (D.state device.old).told → IsOfOtherTexts stored fingerprint.now (D.state device.old).holds }

    // Whatever the file is, empty too, it stays as it is.
    ensures rests { IsTrue (D.state device.old).told → Rests (D.state device.old) (D.state device.new) (D.leaves device.old) (D.leaves device.new) }

    ensures failed { IsErrOf result OpenError.Failed → Rose (D.state device.old).disk_faults (D.state device.new).disk_faults }
    ensures fine { (IsErrOf result OpenError.Failed → ⊥) → SameFaults (D.state device.old) (D.state device.new) }
    ensures frame { Frame (D.state device.old) (D.state device.new) }
    ensures names { SameNames (D.state device.old) (D.state device.new) }
{
    let size = size_at_rest(device)?;
    if size == 0 {
        Ok(Tables::empty(alloc))
    } else {
        let (_, tables) = warm(alloc, device, generation, fingerprint)?;
        Ok(tables)
    }
}
