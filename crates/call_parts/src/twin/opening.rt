//! The two files of a BASE are attached and opened.
ghost use Rattle.std.specs.Prelude.{◌≡◌, ◌⊎◌, ◌++◌, IsSome, IsTrue, IfOk, IfSome, IfNone, OnOk, IsErrOf, List, ℕ, Some, true, false};
ghost use Rattle.kd_device.specs.{declared.half.Half.{Half as Side}, declared.half.Half.TheVariants.{First, Second}, Twin.{disk_of, other}};
ghost use Rattle.kdcs_types.specs.Tables.{TableRows};
ghost use Rattle.laws_of_states.specs.Suits.{Suits};
ghost use Rattle.device_acts.specs.Stands.{AreTables};
ghost use Rattle.kdcfile_double.specs.{Twice.{IsInUse, IsKeptTwice, IsOpen, NoneRose, RoseAt, SameFaultsAt}, Mended.{BothRest}, MakingLaws.{RestsBoth}};
ghost use Rattle.kdcfile_double.specs.Opening.{IsRefusedTwo, IsSpent, IsTwoOfOtherTexts, KeepsTablesTwice, StartsFromTwo, identity_twice};
ghost use Rattle.call_parts.specs.LeavingTwo.{AttachesBoth, FineTwo, FrameTwin, MayAttachTwo, WasBehind};
ghost use Rattle.call_parts.specs.Missing.{IsMissing, MayOpen};
ghost use Rattle.call_parts.specs.OpeningTwo.{AttachesHalf, LeavesOpeningTwo, MayAttachHalf, StaysAsItIs};

use crate::error::CopiesError;
use crate::twin::missing::missing_half;
use application_types::generation::Generation;
use kd_device::{DeviceError, Half, Twin};
use kdcfile_double::{TwinOpenError, TwinStore};
use kdcs_types::Tables;
use refusals::named;
use std::alloc::Global;

// Attaches the file of this BASE with this ending to that half.
fn attach_half<T: Twin>(
    alloc: Global,
    twin: &mut T,
    half: Half,
    base: &[u8],
    ending: &[u8],
) -> Result<(), DeviceError>
    ensures rests { IsTrue (T.both twin.old).told → RestsBoth (T.both twin.old) (T.both twin.new) (T.leaves twin.old) (T.leaves twin.new) }
    ensures names { IsTrue (T.both twin.old).told → MayAttachHalf half (base.now ++ ending.now) (T.both twin.old) (T.both twin.new) }
    ensures named { OnOk result (IsTrue (T.both twin.old).told → AttachesHalf half (base.now ++ ending.now) (T.both twin.old) (T.both twin.new)) }
    ensures other_half { disk_of (other half) (T.both twin.new) ≡ disk_of (other half) (T.both twin.old) }
    ensures failed { IsErrOf result DeviceError.Failed → RoseAt half (T.both twin.old) (T.both twin.new) }
    ensures fine { (IsErrOf result DeviceError.Failed → ⊥) → NoneRose (T.both twin.old) (T.both twin.new) }
    ensures frame { FrameTwin (T.both twin.old) (T.both twin.new) }
{
    let Ok(name) = named(alloc, base, ending) else {
        return Err(DeviceError::Memory);
    };
    twin.reserve(1, name.len() as u64, 0)?;
    twin.attach(half, &name)?;
    Ok(())
}

/// Attaches both files of this BASE, which stay as they are.
pub fn attach_both<T: Twin>(alloc: Global, twin: &mut T, base: &[u8]) -> Result<(), DeviceError>
    ensures rests { IsTrue (T.both twin.old).told → RestsBoth (T.both twin.old) (T.both twin.new) (T.leaves twin.old) (T.leaves twin.new) }
    ensures names { IsTrue (T.both twin.old).told → MayAttachTwo base.now (T.both twin.old) (T.both twin.new) }
    ensures named { OnOk result (IsTrue (T.both twin.old).told → AttachesBoth base.now (T.both twin.old) (T.both twin.new)) }
    ensures failed { IsErrOf result DeviceError.Failed → RoseAt First (T.both twin.old) (T.both twin.new) ⊎ RoseAt Second (T.both twin.old) (T.both twin.new) }
    ensures fine { (IsErrOf result DeviceError.Failed → ⊥) → NoneRose (T.both twin.old) (T.both twin.new) }
    ensures frame { FrameTwin (T.both twin.old) (T.both twin.new) }
{
    attach_half(alloc, twin, Half::First, base, b".KDCA")?;
    attach_half(alloc, twin, Half::Second, base, b".KDCB")?;
    Ok(())
}

/// Attaches both files of this BASE, and tells which one is empty or not there beside a copy with commits, unless that is
/// taken alone. Both stay as they are.
pub fn find_missing<T: Twin>(
    alloc: Global,
    twin: &mut T,
    base: &[u8],
    alone: bool,
) -> Result<Option<Half>, DeviceError>
    ensures some { IfOk result (λ m. IfSome m (λ half. (alone ≡ false) × (IsTrue (T.both twin.old).told → IsMissing half (T.both twin.old).first.holds (T.both twin.old).second.holds))) }
    ensures none { IfOk result (λ m. IfNone m (IsTrue (T.both twin.old).told → MayOpen alone (T.both twin.old))) }
    ensures rests { IsTrue (T.both twin.old).told → RestsBoth (T.both twin.old) (T.both twin.new) (T.leaves twin.old) (T.leaves twin.new) }
    ensures names { IsTrue (T.both twin.old).told → MayAttachTwo base.now (T.both twin.old) (T.both twin.new) }
    ensures named { OnOk result (IsTrue (T.both twin.old).told → AttachesBoth base.now (T.both twin.old) (T.both twin.new)) }
    ensures failed { IsErrOf result DeviceError.Failed → RoseAt First (T.both twin.old) (T.both twin.new) ⊎ RoseAt Second (T.both twin.old) (T.both twin.new) }
    ensures fine { (IsErrOf result DeviceError.Failed → ⊥) → NoneRose (T.both twin.old) (T.both twin.new) }
    ensures frame { FrameTwin (T.both twin.old) (T.both twin.new) }
{
    attach_both(alloc, twin, base)?;
    if alone {
        return Ok(None);
    }
    missing_half(alloc, twin)
}

/// Attaches both files of this BASE, opens them for this generation and the texts with this fingerprint, which makes
/// empty ones, and writes one that is behind anew; unless one is missing, and a copy is not taken alone.
pub fn open_unless_missing<T: Twin>(
    alloc: Global,
    twin: &mut T,
    base: &[u8],
    generation: &Generation,
    fingerprint: &[u8; 32],
    alone: bool,
) -> Result<(TwinStore, Tables), CopiesError>
    requires double { IsSome generation.now.double }
    ensures suits { IfOk result (λ o. Suits generation.now o.1) }
    ensures keeps { IfOk result (λ o. KeepsTablesTwice (identity_twice generation.now fingerprint.now) o.0 o.1) }
    ensures is_open { IfOk result (λ o. IsOpen o.0) }
    ensures kept { IfOk result (λ o. IsTrue (T.both twin.old).told → IsKeptTwice o.0 (T.both twin.new) (T.leaves twin.new)) }
    ensures starts { IfOk result (λ o. IsTrue (T.both twin.old).told → StartsFromTwo generation.now fingerprint.now (T.both twin.old).first.holds (T.both twin.old).second.holds o.1) }

    // A half is in use, and no call on it failed; or it is lost, since one failed while it was written anew.
    ensures used { IfOk result (λ o. IsTrue (T.both twin.old).told → (half : Side) → IsInUse half o.0 ⊎ (o.0.lost ≡ Some half)) }
    ensures fine { IfOk result (λ o. (half : Side) → IsInUse half o.0 → SameFaultsAt half (T.both twin.old) (T.both twin.new)) }
    ensures lost { IfOk result (λ o. (half : Side) → o.0.lost ≡ Some half → RoseAt half (T.both twin.old) (T.both twin.new)) }

    // Just a half that was behind is mended.
    ensures mended { IfOk result (λ o. IsTrue (T.both twin.old).told → (half : Side) → o.0.mended ≡ Some half → WasBehind half (T.both twin.old)) }
    ensures mended_all { IfOk result (λ o. IsTrue (T.both twin.old).told → (half : Side) → WasBehind half (T.both twin.old) → (o.0.mended ≡ Some half) ⊎ (o.0.lost ≡ Some half)) }

    // They are opened, or refused for what they stand for, where no file is missing, or a copy is taken alone.
    ensures may { OnOk result (IsTrue (T.both twin.old).told → MayOpen alone (T.both twin.old)) }
    ensures missing { (half : Side) → IsErrOf result (CopiesError.Missing half) → (alone ≡ false) × (IsTrue (T.both twin.old).told → IsMissing half (T.both twin.old).first.holds (T.both twin.old).second.holds) }
    ensures refused { IsErrOf result (CopiesError.Files TwinOpenError.NotKdcfile) → IsTrue (T.both twin.old).told → MayOpen alone (T.both twin.old) × IsRefusedTwo generation.now fingerprint.now (T.both twin.old).first.holds (T.both twin.old).second.holds }
    ensures other { (stored : List ℕ) → IsErrOf result (CopiesError.Files (TwinOpenError.OtherGeneration stored)) → IsTrue (T.both twin.old).told → MayOpen alone (T.both twin.old) × IsTwoOfOtherTexts stored fingerprint.now (T.both twin.old).first.holds (T.both twin.old).second.holds }
    ensures spent { (n : ℕ) → IsErrOf result (CopiesError.Files (TwinOpenError.Spent n)) → IsTrue (T.both twin.old).told → MayOpen alone (T.both twin.old) × IsSpent generation.now fingerprint.now n (T.both twin.old).first.holds (T.both twin.old).second.holds }

    // Nothing is sent. Files from which no application goes on, or may, stay as they are; else the copy that counts keeps its
    // tables at every stop, or both files were empty and neither is a copy yet.
    ensures sent { IsTrue (T.both twin.old).told → (T.both twin.new).sent ≡ (T.both twin.old).sent }
    ensures still { IsTrue (T.both twin.old).told → ((t : TableRows) → MayOpen alone (T.both twin.old) → StartsFromTwo generation.now fingerprint.now (T.both twin.old).first.holds (T.both twin.old).second.holds t → ⊥) → StaysAsItIs (T.both twin.old) (T.both twin.new) (T.leaves twin.old) (T.leaves twin.new) }
    ensures any_moment { IsTrue (T.both twin.old).told → BothRest (T.both twin.old) (T.leaves twin.old) → (t : TableRows) → StartsFromTwo generation.now fingerprint.now (T.both twin.old).first.holds (T.both twin.old).second.holds t → LeavesOpeningTwo (identity_twice generation.now fingerprint.now) t (T.both twin.old) (T.both twin.new) (T.leaves twin.new) }

    ensures names { IsTrue (T.both twin.old).told → MayAttachTwo base.now (T.both twin.old) (T.both twin.new) }
    ensures named { OnOk result (IsTrue (T.both twin.old).told → AttachesBoth base.now (T.both twin.old) (T.both twin.new)) }
    ensures failed { IsErrOf result (CopiesError.Files TwinOpenError.Failed) → RoseAt First (T.both twin.old) (T.both twin.new) ⊎ RoseAt Second (T.both twin.old) (T.both twin.new) }
    ensures went { (IsErrOf result (CopiesError.Files TwinOpenError.Failed) → ⊥) → FineTwo (T.both twin.old) (T.both twin.new) }
    ensures frame { FrameTwin (T.both twin.old) (T.both twin.new) }
{
    if let Some(half) = find_missing(alloc, twin, base, alone)? {
        return Err(CopiesError::Missing(half));
    }
    let (mut store, tables) = TwinStore::open(alloc, twin, generation, fingerprint, true)?;
    store.mend(alloc, twin)?;
    Ok((store, tables))
}

/// The same, whichever file is missing.
pub fn open_copies<T: Twin>(
    alloc: Global,
    twin: &mut T,
    base: &[u8],
    generation: &Generation,
    fingerprint: &[u8; 32],
) -> Result<(TwinStore, Tables), TwinOpenError>
    requires double { IsSome generation.now.double }
    ensures suits { IfOk result (λ o. Suits generation.now o.1) }
    ensures keeps { IfOk result (λ o. KeepsTablesTwice (identity_twice generation.now fingerprint.now) o.0 o.1) }
    ensures is_open { IfOk result (λ o. IsOpen o.0) }
    ensures kept { IfOk result (λ o. IsTrue (T.both twin.old).told → IsKeptTwice o.0 (T.both twin.new) (T.leaves twin.new)) }
    ensures starts { IfOk result (λ o. IsTrue (T.both twin.old).told → StartsFromTwo generation.now fingerprint.now (T.both twin.old).first.holds (T.both twin.old).second.holds o.1) }

    // A half is in use, and no call on it failed; or it is lost, since one failed while it was written anew.
    ensures used { IfOk result (λ o. IsTrue (T.both twin.old).told → (half : Side) → IsInUse half o.0 ⊎ (o.0.lost ≡ Some half)) }
    ensures fine { IfOk result (λ o. (half : Side) → IsInUse half o.0 → SameFaultsAt half (T.both twin.old) (T.both twin.new)) }
    ensures lost { IfOk result (λ o. (half : Side) → o.0.lost ≡ Some half → RoseAt half (T.both twin.old) (T.both twin.new)) }

    // Just a half that was behind is mended.
    ensures mended { IfOk result (λ o. IsTrue (T.both twin.old).told → (half : Side) → o.0.mended ≡ Some half → WasBehind half (T.both twin.old)) }
    ensures mended_all { IfOk result (λ o. IsTrue (T.both twin.old).told → (half : Side) → WasBehind half (T.both twin.old) → (o.0.mended ≡ Some half) ⊎ (o.0.lost ≡ Some half)) }

    ensures refused { IsErrOf result TwinOpenError.NotKdcfile → IsTrue (T.both twin.old).told → IsRefusedTwo generation.now fingerprint.now (T.both twin.old).first.holds (T.both twin.old).second.holds }
    ensures other { (stored : List ℕ) → IsErrOf result (TwinOpenError.OtherGeneration stored) → IsTrue (T.both twin.old).told → IsTwoOfOtherTexts stored fingerprint.now (T.both twin.old).first.holds (T.both twin.old).second.holds }
    ensures spent { (n : ℕ) → IsErrOf result (TwinOpenError.Spent n) → IsTrue (T.both twin.old).told → IsSpent generation.now fingerprint.now n (T.both twin.old).first.holds (T.both twin.old).second.holds }

    // Nothing is sent. Files from which no application goes on stay as they are; else the copy that counts keeps its
    // tables at every stop, or both files were empty and neither is a copy yet.
    ensures sent { IsTrue (T.both twin.old).told → (T.both twin.new).sent ≡ (T.both twin.old).sent }
    ensures still { IsTrue (T.both twin.old).told → ((t : TableRows) → StartsFromTwo generation.now fingerprint.now (T.both twin.old).first.holds (T.both twin.old).second.holds t → ⊥) → StaysAsItIs (T.both twin.old) (T.both twin.new) (T.leaves twin.old) (T.leaves twin.new) }
    ensures any_moment { IsTrue (T.both twin.old).told → BothRest (T.both twin.old) (T.leaves twin.old) → (t : TableRows) → StartsFromTwo generation.now fingerprint.now (T.both twin.old).first.holds (T.both twin.old).second.holds t → LeavesOpeningTwo (identity_twice generation.now fingerprint.now) t (T.both twin.old) (T.both twin.new) (T.leaves twin.new) }

    ensures names { IsTrue (T.both twin.old).told → MayAttachTwo base.now (T.both twin.old) (T.both twin.new) }
    ensures named { OnOk result (IsTrue (T.both twin.old).told → AttachesBoth base.now (T.both twin.old) (T.both twin.new)) }
    ensures failed { IsErrOf result TwinOpenError.Failed → RoseAt First (T.both twin.old) (T.both twin.new) ⊎ RoseAt Second (T.both twin.old) (T.both twin.new) }
    ensures went { (IsErrOf result TwinOpenError.Failed → ⊥) → FineTwo (T.both twin.old) (T.both twin.new) }
    ensures frame { FrameTwin (T.both twin.old) (T.both twin.new) }
{
    match open_unless_missing(alloc, twin, base, generation, fingerprint, true) {
        Ok(opened) => Ok(opened),
        Err(CopiesError::Files(why)) => Err(why),
        Err(CopiesError::Missing(_)) => unreachable!(),
    }
}

/// Attaches both files of this BASE, and reads the tables of the copy that counts. Both files stay as they are, empty too.
pub fn look_at_copies<T: Twin>(
    alloc: Global,
    twin: &mut T,
    base: &[u8],
    generation: &Generation,
    fingerprint: &[u8; 32],
) -> Result<Tables, TwinOpenError>
    requires double { IsSome generation.now.double }
    ensures suits { IfOk result (λ t. Suits generation.now t) }
    ensures tables { IfOk result (λ t. AreTables t) }
    ensures starts { IfOk result (λ t. IsTrue (T.both twin.old).told → StartsFromTwo generation.now fingerprint.now (T.both twin.old).first.holds (T.both twin.old).second.holds t) }
    ensures refused { IsErrOf result TwinOpenError.NotKdcfile → IsTrue (T.both twin.old).told → IsRefusedTwo generation.now fingerprint.now (T.both twin.old).first.holds (T.both twin.old).second.holds }
    ensures other { (stored : List ℕ) → IsErrOf result (TwinOpenError.OtherGeneration stored) → IsTrue (T.both twin.old).told → IsTwoOfOtherTexts stored fingerprint.now (T.both twin.old).first.holds (T.both twin.old).second.holds }
    ensures spent { (n : ℕ) → IsErrOf result (TwinOpenError.Spent n) → IsTrue (T.both twin.old).told → IsSpent generation.now fingerprint.now n (T.both twin.old).first.holds (T.both twin.old).second.holds }
    ensures still { IsTrue (T.both twin.old).told → StaysAsItIs (T.both twin.old) (T.both twin.new) (T.leaves twin.old) (T.leaves twin.new) }
    ensures names { IsTrue (T.both twin.old).told → MayAttachTwo base.now (T.both twin.old) (T.both twin.new) }
    ensures named { OnOk result (IsTrue (T.both twin.old).told → AttachesBoth base.now (T.both twin.old) (T.both twin.new)) }
    ensures failed { IsErrOf result TwinOpenError.Failed → RoseAt First (T.both twin.old) (T.both twin.new) ⊎ RoseAt Second (T.both twin.old) (T.both twin.new) }
    ensures went { (IsErrOf result TwinOpenError.Failed → ⊥) → FineTwo (T.both twin.old) (T.both twin.new) }
    ensures frame { FrameTwin (T.both twin.old) (T.both twin.new) }
{
    attach_both(alloc, twin, base)?;
    let (_store, tables) = TwinStore::open(alloc, twin, generation, fingerprint, false)?;
    Ok(tables)
}
