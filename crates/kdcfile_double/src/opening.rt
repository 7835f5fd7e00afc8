//! Which of two files counts, and what it is opened to.
ghost use Rattle.std.specs.Prelude.{◌≡◌, ◌⊎◌, ◌≤◌, ◌+◌, ◌^◌, ◌↔◌, length, IsSome, IsTrue, IfOk, OnOk, OnErr, IsErrOf, List, ℕ, Some, None, false};
ghost use Rattle.kd_records.specs.{Charge.{total_charge}, Identity.{IsIdentity}};
ghost use Rattle.kd_device.specs.{declared.half.Half.{Half as Side}, declared.half.Half.TheVariants.{First, Second}};
ghost use Rattle.kdcs_types.specs.Tables.{TableRows, empty_tables};
ghost use Rattle.kdcfile_copies.specs.Finding.{IsAnswer, IsFound};
ghost use Rattle.kdcfile_store.specs.Paged.{identity_with};
ghost use Rattle.laws_of_states.specs.Suits.{Suits};
ghost use Rattle.device_acts.specs.Stands.{AreTables};
ghost use Rattle.kdcfile_double.specs.Twice.{IsOpen, IsInUse, IsKeptTwice, IsTwice, FrameBoth, RoseAt, NoneRose, SameFaultsAt, LosesBy, LeavesBoth, content_of, identity_of, sequence_of};
ghost use Rattle.kdcfile_double.specs.Opening.{AreEmpty, AreInUseSo, HasNoTablesInTwo, IsMakingTwo, IsRefusedTwo, IsSpent, IsTwoOfOtherTexts, KeepsTablesTwice, SameFiles, StartsFromTwo, Unchanged};
ghost use Rattle.kdcfile_double.specs.{Opening.{identity_twice}, Twice.{FineTwice, SparesLine, SparesOne, with_copies}};
ghost use Rattle.kdcfile_double.specs.{Choice.{AreOfFiles}, Mended.{BothRest}, MakingLaws.{RestsBoth}, Committing.{IsKeptAt}, OneHalfLaws.{KeepsSome}, ReopenLaws.{AreAgain}};

use crate::choosing::{chosen, in_use};
use crate::error::TwinOpenError;
use crate::one_half::reload;
use crate::reading::{copy_in, read_both};
use crate::store::TwinStore;
use application_types::generation::Generation;
use device_acts::warm_start::OpenError;
use kd_device::{Half, Twin};
use kdcfile_copies::kdcfile_halves::make_half;
use kdcfile_copies::{Found, LoadedCopy};
use kdcfile_store::StoreLimits;
use kdcs_types::Tables;
use std::alloc::Global;

/// The greatest sequence from which a call goes on.
const LAST_SEQUENCE: u64 = 1_000_000_000_000_000_000;

// What both files of a generation are made with: there is one page more.
fn limits_twice(generation: &Generation) -> StoreLimits
    requires { IsSome generation.now.double }
    ensures made { (fingerprint : List ℕ) → identity_with result fingerprint ≡ identity_twice generation.now fingerprint }
    ensures identity { (fingerprint : List ℕ) → length fingerprint ≡ 32 → IsIdentity (identity_with result fingerprint) }
{
    let max = generation.max();
    StoreLimits {
        blksize: max.blksize,
        pgpool: max.pgpool + 1,
    }
}

fn is_empty(found: &Found) -> bool
    ensures { IsTrue result ↔ (found.now ≡ Found.Empty) }
{
    match found {
        Found::Empty => true,
        Found::NoCopy => false,
        Found::Copy(_) => false,
    }
}

/// Whether both files are empty or not there.
pub fn are_empty(first: &Found, second: &Found) -> bool
    ensures { IsTrue result ↔ ((first.now ≡ Found.Empty) × (second.now ≡ Found.Empty)) }
{
    is_empty(first) && is_empty(second)
}

// The store of two empty files: made where `make` says so, and else with no half in use.
fn empty<T: Twin>(
    alloc: Global,
    twin: &mut T,
    generation: &Generation,
    fingerprint: &[u8; 32],
    make: bool,
) -> Result<(TwinStore, Tables), TwinOpenError>
    requires double { IsSome generation.now.double }
    requires empty { IsTrue (T.both twin.old).told → AreEmpty (T.both twin.old).first.holds (T.both twin.old).second.holds }
    requires at_rest { IsTrue (T.both twin.old).told → BothRest (T.both twin.old) (T.leaves twin.old) }
    ensures empty { IfOk result (λ o. o.1 ≡ empty_tables) }
    ensures keeps { IfOk result (λ o. IsOpen o.0 → KeepsTablesTwice (identity_twice generation.now fingerprint.now) o.0 o.1) }
    ensures sequence { IfOk result (λ o. sequence_of o.0 ≡ 0) }
    ensures is_open { IfOk result (λ o. IsTrue make → IsOpen o.0) }
    ensures made { IfOk result (λ o. IsTrue make → (half : Side) → IsInUse half o.0) }
    ensures new { IfOk result (λ o. (o.0.mended ≡ None) × (o.0.lost ≡ None)) }
    ensures kept { IfOk result (λ o. IsOpen o.0 → IsTrue (T.both twin.old).told → IsKeptTwice o.0 (T.both twin.new) (T.leaves twin.new)) }
    ensures at_rest { OnOk result (IsTrue (T.both twin.old).told → BothRest (T.both twin.new) (T.leaves twin.new)) }
    ensures still { make ≡ false → twin.new ≡ twin.old }
    ensures any_moment { IsTrue (T.both twin.old).told → LeavesBoth (T.both twin.old) (T.both twin.new) (T.leaves twin.old) (T.leaves twin.new) (λ c d out. Unchanged (T.both twin.old) (T.leaves twin.old) c d out ⊎ IsMakingTwo (identity_twice generation.now fingerprint.now) (T.both twin.old).sent c d out) }
    ensures told { (IsErrOf result TwinOpenError.NotKdcfile → ⊥) × ((stored : List ℕ) → IsErrOf result (TwinOpenError.OtherGeneration stored) → ⊥) × ((n : ℕ) → IsErrOf result (TwinOpenError.Spent n) → ⊥) }
    ensures failed { IsErrOf result TwinOpenError.Failed → RoseAt First (T.both twin.old) (T.both twin.new) ⊎ RoseAt Second (T.both twin.old) (T.both twin.new) }
    ensures fine { (IsErrOf result TwinOpenError.Failed → ⊥) → NoneRose (T.both twin.old) (T.both twin.new) }
    ensures frame { FrameBoth (T.both twin.old) (T.both twin.new) }
{
    if !make {
        return Ok((in_use(None, None), Tables::empty(alloc)));
    }
    let limits = limits_twice(generation);
    let first = make_half(alloc, twin, Half::First, &limits, fingerprint)?;
    let second = make_half(alloc, twin, Half::Second, &limits, fingerprint)?;
    Ok((in_use(Some(first), Some(second)), Tables::empty(alloc)))
}

/// The store of what was found in two files, and the tables that it keeps. It reads no file and mends nothing.
pub fn opened(
    alloc: Global,
    first: Found,
    second: Found,
    generation: &Generation,
    fingerprint: &[u8; 32],
) -> Result<(TwinStore, Tables), TwinOpenError>
    requires first { IsFound first }
    requires second { IsFound second }
    ensures fits { IfOk result (λ o. (a b : List ℕ) → IsAnswer first a → IsAnswer second b → AreOfFiles o.0 a b) }
    ensures is_open { IfOk result (λ o. IsOpen o.0) }
    ensures keeps { IfOk result (λ o. KeepsTablesTwice (identity_twice generation.now fingerprint.now) o.0 o.1) }
    ensures suits { IfOk result (λ o. Suits generation.now o.1) }
    ensures sequence { IfOk result (λ o. sequence_of o.0 ≤ 10 ^ 18) }
    ensures new { IfOk result (λ o. (o.0.mended ≡ None) × (o.0.lost ≡ None)) }
    ensures refused { IsErrOf result TwinOpenError.NotKdcfile → (a b : List ℕ) → IsAnswer first a → IsAnswer second b → HasNoTablesInTwo generation.now fingerprint.now a b }
    ensures other { (stored : List ℕ) → IsErrOf result (TwinOpenError.OtherGeneration stored) → (a b : List ℕ) → IsAnswer first a → IsAnswer second b → IsTwoOfOtherTexts stored fingerprint.now a b }
    ensures spent { (n : ℕ) → IsErrOf result (TwinOpenError.Spent n) → (a b : List ℕ) → IsAnswer first a → IsAnswer second b → IsSpent generation.now fingerprint.now n a b }
    ensures failed { IsErrOf result TwinOpenError.Failed → ⊥ }
{
    let Some(store) = chosen(copy_in(first), copy_in(second)) else {
        return Err(TwinOpenError::NotKdcfile);
    };
    let tables = store.tables_for(alloc, generation, fingerprint)?;
    let sequence = store.sequence();
    if sequence > LAST_SEQUENCE {
        return Err(TwinOpenError::Spent(sequence));
    }
    Ok((store, tables))
}

// Reads the copies of both halves again, as far as they are in use.
fn reload_both<T: Twin>(
    alloc: Global,
    twin: &mut T,
    first: Option<LoadedCopy>,
    second: Option<LoadedCopy>,
    lost: &mut Option<Half>,
) -> Result<(Option<LoadedCopy>, Option<LoadedCopy>), OpenError>
    requires first_keeps { KeepsSome first }
    requires second_keeps { KeepsSome second }
    requires first_kept { IsTrue (T.both twin.old).told → IsKeptAt First first (T.both twin.old) (T.leaves twin.old) }
    requires second_kept { IsTrue (T.both twin.old).told → IsKeptAt Second second (T.both twin.old) (T.leaves twin.old) }
    ensures again { IfOk result (λ o. AreAgain first second o.0 o.1 lost.old lost.new (T.both twin.old) (T.both twin.new)) }
    ensures first_kept { IfOk result (λ o. IsTrue (T.both twin.old).told → IsKeptAt First o.0 (T.both twin.new) (T.leaves twin.new)) }
    ensures second_kept { IfOk result (λ o. IsTrue (T.both twin.old).told → IsKeptAt Second o.1 (T.both twin.new) (T.leaves twin.new)) }
    ensures rests { IsTrue (T.both twin.old).told → RestsBoth (T.both twin.old) (T.both twin.new) (T.leaves twin.old) (T.leaves twin.new) }
    ensures refused { IsErrOf result OpenError.NotKdcfile → IsTrue (T.both twin.old).told → ⊥ }
    ensures other { (stored : List ℕ) → IsErrOf result (OpenError.OtherGeneration stored) → ⊥ }
    ensures failed { IsErrOf result OpenError.Failed → ⊥ }
    ensures spared { OnErr result (SparesOne (with_copies first second) (T.both twin.old) (T.both twin.new)) }
    ensures line { SparesLine (with_copies first second) (T.both twin.old) (T.both twin.new) }
    ensures frame { FrameBoth (T.both twin.old) (T.both twin.new) }
{
    let first = reload(alloc, twin, Half::First, first, lost)?;
    let second = reload(alloc, twin, Half::Second, second, lost)?;
    Ok((first, second))
}

// The store of the copies that were read again, where there is one.
fn again(
    first: Option<LoadedCopy>,
    second: Option<LoadedCopy>,
    mended: Option<Half>,
    lost: Option<Half>,
) -> Result<TwinStore, OpenError>
    requires { IsTwice (record { first = first; second = second; mended = mended; lost = lost }) }
    ensures store { IfOk result (λ s. s ≡ record { first = first; second = second; mended = mended; lost = lost }) }
    ensures is_open { IfOk result (λ s. IsOpen s) }
    ensures failed { OnErr result ((result ≡ Err OpenError.Failed) × (first ≡ None) × (second ≡ None)) }
{
    if first.is_none() && second.is_none() {
        return Err(OpenError::Failed);
    }
    Ok(TwinStore {
        first,
        second,
        mended,
        lost,
    })
}

impl TwinStore {
    /// Opens the two files that the twin has, and mends nothing. Two empty ones are made where `make` says so, and else
    /// give the empty tables, with no half in use. A copy that stands alone counts; of two copies the one with the greater
    /// sequence, and of two with one sequence the first. The definition asks for two copies.
    pub fn open<T: Twin>(
        alloc: Global,
        twin: &mut T,
        generation: &Generation,
        fingerprint: &[u8; 32],
        make: bool,
    ) -> Result<(TwinStore, Tables), TwinOpenError>
        requires double { IsSome generation.now.double }
        ensures suits { IfOk result (λ o. Suits generation.now o.1) }
        ensures tables { IfOk result (λ o. AreTables o.1) }
        ensures keeps { IfOk result (λ o. IsOpen o.0 → KeepsTablesTwice (identity_twice generation.now fingerprint.now) o.0 o.1) }
        ensures sequence { IfOk result (λ o. sequence_of o.0 ≤ 10 ^ 18) }

        // There are pages for what is kept and for the record of the sequence, as a commit asks.
        ensures fits { IfOk result (λ o. IsOpen o.0 → total_charge (identity_of o.0).blksize (content_of o.0).items + 1 ≤ (identity_of o.0).pages) }

        ensures starts { IfOk result (λ o. IsTrue (T.both twin.old).told → StartsFromTwo generation.now fingerprint.now (T.both twin.old).first.holds (T.both twin.old).second.holds o.1) }
        ensures is_open { IfOk result (λ o. IsTrue make ⊎ (IsTrue (T.both twin.old).told × (AreEmpty (T.both twin.old).first.holds (T.both twin.old).second.holds → ⊥)) → IsOpen o.0) }
        ensures new { IfOk result (λ o. (o.0.mended ≡ None) × (o.0.lost ≡ None)) }
        ensures kept { IfOk result (λ o. IsOpen o.0 → IsTrue (T.both twin.old).told → IsKeptTwice o.0 (T.both twin.new) (T.leaves twin.new)) }
        ensures at_rest { OnOk result (IsTrue (T.both twin.old).told → BothRest (T.both twin.new) (T.leaves twin.new)) }

        // Of two empty files that are made both are in use.
        ensures made { IfOk result (λ o. IsTrue make → IsTrue (T.both twin.old).told → AreEmpty (T.both twin.old).first.holds (T.both twin.old).second.holds → (half : Side) → IsInUse half o.0) }

        // A half is behind just where it is no copy beside one, or the one of two that does not count.
        ensures in_use { IfOk result (λ o. IsOpen o.0 → IsTrue (T.both twin.old).told → (AreEmpty (T.both twin.old).first.holds (T.both twin.old).second.holds → ⊥) → AreInUseSo o.0 (T.both twin.old).first.holds (T.both twin.old).second.holds) }

        ensures refused { IsErrOf result TwinOpenError.NotKdcfile → IsTrue (T.both twin.old).told → IsRefusedTwo generation.now fingerprint.now (T.both twin.old).first.holds (T.both twin.old).second.holds }
        ensures other { (stored : List ℕ) → IsErrOf result (TwinOpenError.OtherGeneration stored) → IsTrue (T.both twin.old).told → IsTwoOfOtherTexts stored fingerprint.now (T.both twin.old).first.holds (T.both twin.old).second.holds }
        ensures spent { (n : ℕ) → IsErrOf result (TwinOpenError.Spent n) → IsTrue (T.both twin.old).told → IsSpent generation.now fingerprint.now n (T.both twin.old).first.holds (T.both twin.old).second.holds }

        // Files that are not both empty stay as they are, and so do all where nothing is to be made.
        ensures still { IsTrue (T.both twin.old).told → (AreEmpty (T.both twin.old).first.holds (T.both twin.old).second.holds → ⊥) ⊎ (make ≡ false) → SameFiles (T.both twin.old) (T.both twin.new) × LeavesBoth (T.both twin.old) (T.both twin.new) (T.leaves twin.old) (T.leaves twin.new) (Unchanged (T.both twin.old) (T.leaves twin.old)) }
        ensures any_moment { IsTrue (T.both twin.old).told → AreEmpty (T.both twin.old).first.holds (T.both twin.old).second.holds → LeavesBoth (T.both twin.old) (T.both twin.new) (T.leaves twin.old) (T.leaves twin.new) (λ c d out. Unchanged (T.both twin.old) (T.leaves twin.old) c d out ⊎ IsMakingTwo (identity_twice generation.now fingerprint.now) (T.both twin.old).sent c d out) }

        ensures failed { IsErrOf result TwinOpenError.Failed → RoseAt First (T.both twin.old) (T.both twin.new) ⊎ RoseAt Second (T.both twin.old) (T.both twin.new) }
        ensures fine { (IsErrOf result TwinOpenError.Failed → ⊥) → NoneRose (T.both twin.old) (T.both twin.new) }
        ensures frame { FrameBoth (T.both twin.old) (T.both twin.new) }
    {
        let found = read_both(alloc, twin)?;
        if are_empty(&found.0, &found.1) {
            return empty(alloc, twin, generation, fingerprint, make);
        }
        opened(alloc, found.0, found.1, generation, fingerprint)
    }

    /// Opens the halves in use again, which are alike, and mends nothing. A half on which a call fails is lost.
    pub fn reopen<T: Twin>(
        self,
        alloc: Global,
        twin: &mut T,
        generation: &Generation,
        fingerprint: &[u8; 32],
    ) -> Result<(TwinStore, Tables), OpenError>
        requires is_open { IsOpen self }
        requires kept { IsTrue (T.both twin.old).told → IsKeptTwice self (T.both twin.old) (T.leaves twin.old) }
        ensures suits { IfOk result (λ o. Suits generation.now o.1) }
        ensures keeps { IfOk result (λ o. KeepsTablesTwice (identity_twice generation.now fingerprint.now) o.0 o.1) }
        ensures fits { IfOk result (λ o. total_charge (identity_of o.0).blksize (content_of o.0).items + 1 ≤ (identity_of o.0).pages) }
        ensures is_open { IfOk result (λ o. IsOpen o.0) }
        ensures same { IfOk result (λ o. IsTrue (T.both twin.old).told → (content_of o.0 ≡ content_of self) × (sequence_of o.0 ≡ sequence_of self) × (identity_of o.0 ≡ identity_of self)) }
        ensures mended { IfOk result (λ o. o.0.mended ≡ self.mended) }
        ensures lost { IfOk result (λ o. LosesBy self o.0 (T.both twin.old) (T.both twin.new)) }
        ensures stays { IfOk result (λ o. (half : Side) → IsInUse half self → IsInUse half o.0 ⊎ (o.0.lost ≡ Some half)) }
        ensures no_other { IfOk result (λ o. (half : Side) → IsInUse half o.0 → IsInUse half self) }
        ensures kept { IfOk result (λ o. IsTrue (T.both twin.old).told → IsKeptTwice o.0 (T.both twin.new) (T.leaves twin.new)) }

        // Where the store keeps tables of these texts that suit, it is not refused.
        ensures refused { (t : TableRows) → KeepsTablesTwice (identity_twice generation.now fingerprint.now) self t → Suits generation.now t → IsErrOf result OpenError.NotKdcfile → IsTrue (T.both twin.old).told → ⊥ }
        ensures other { (t : TableRows) (stored : List ℕ) → KeepsTablesTwice (identity_twice generation.now fingerprint.now) self t → IsErrOf result (OpenError.OtherGeneration stored) → IsTrue (T.both twin.old).told → ⊥ }

        ensures still { IsTrue (T.both twin.old).told → SameFiles (T.both twin.old) (T.both twin.new) × LeavesBoth (T.both twin.old) (T.both twin.new) (T.leaves twin.old) (T.leaves twin.new) (Unchanged (T.both twin.old) (T.leaves twin.old)) }
        ensures failed { IsErrOf result OpenError.Failed → (half : Side) → IsInUse half self → RoseAt half (T.both twin.old) (T.both twin.new) }
        ensures fine { IfOk result (λ o. (half : Side) → IsInUse half o.0 → SameFaultsAt half (T.both twin.old) (T.both twin.new)) }
        ensures went { (IsErrOf result OpenError.Failed → ⊥) → FineTwice self (T.both twin.old) (T.both twin.new) }
        ensures frame { FrameBoth (T.both twin.old) (T.both twin.new) }
    {
        let TwinStore {
            first,
            second,
            mended,
            mut lost,
        } = self;
        let found = reload_both(alloc, twin, first, second, &mut lost)?;
        let store = again(found.0, found.1, mended, lost)?;
        let tables = store.tables_for(alloc, generation, fingerprint)?;
        Ok((store, tables))
    }
}
