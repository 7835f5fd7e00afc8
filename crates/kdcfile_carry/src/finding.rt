//! What is found in two files, whatever their texts are.
ghost use Rattle.std.specs.Prelude.{◌≡◌, ◌⊎◌, ℕ, List, IsTrue, IfOk, IfSome, OnOk, IsErrOf, Some, None};
ghost use Rattle.kd_device.specs.declared.half.Half.TheVariants.{First, Second};
ghost use Rattle.kdcfile_copies.specs.{Copies.{IsNoCopy}, Finding.{IsLoaded}};
ghost use Rattle.kdcfile_double.specs.{Choice.{HasCopy, IsLoadedIf}, Twice.{FrameBoth, NoneRose, RoseAt}, MakingLaws.{RestsBoth}, Mended.{BothRest}};
ghost use Rattle.device_acts.specs.Stands.{StandsForNoTables};
ghost use Rattle.kd_update.specs.declared.error.UpdateError.TheVariants as cause;
ghost use Rattle.kd_update.specs.declared.error.UpdateError.{UpdateError as Cause};
ghost use Rattle.kdcfile_carry.specs.{Files.{AreNone, HaveTwoMeanings}, Finding.{AreCounted, IsKeptIn, KeepsNoTables}, Keeping.{IsIn, IsKnown}};

use crate::error::FilesError;
use crate::first_file::open_first;
use device_acts::warm_start::OpenError;
use kd_device::{Half, Twin};
use kd_update::UpdateError;
use kdcfile_copies::{LoadedCopy, bare_content};
use kdcfile_double::{are_alike, copy_in, read_both};
use kdcs_types::Tables;
use record_codec::tables_of;
use std::alloc::Global;

/// What two files keep: the file that counts, its sequence where it is a copy, the half that has it, whether the other half
/// is the same copy (and for a KDCFILE by itself, which has none, that it need not be), and the tables.
pub(crate) struct Kept {
    pub file: LoadedCopy,
    pub sequence: Option<u64>,
    pub home: Half,
    pub alike: bool,
    pub tables: Tables,
}

impl Drop for Kept {
    fn drop(self) {
        let Kept {
            file,
            sequence,
            home,
            alike,
            tables,
        } = self;
        let _ = file;
        let _ = sequence;
        let _ = home;
        let _ = alike;
        let _ = tables;
    }
}

/// The copy that counts of two, the half that has it, and whether the other one is the same.
#[derive(Drop)]
pub(crate) struct Counted {
    pub copy: LoadedCopy,
    pub home: Half,
    pub alike: bool,
}

// Of two copies, the one with the greater sequence, and of two with the same the first.
fn of_two(first: LoadedCopy, second: LoadedCopy) -> Counted
    requires first { IsLoaded first }
    requires second { IsLoaded second }
    ensures loaded { IsLoaded result.copy }
    ensures counts { (a b : List ℕ) → HasCopy (Some first) a → HasCopy (Some second) b → AreCounted result a b }
{
    if first.sequence < second.sequence {
        return Counted {
            copy: second,
            home: Half::Second,
            alike: false,
        };
    }
    let alike = are_alike(&first, &second);
    Counted {
        copy: first,
        home: Half::First,
        alike,
    }
}

// The copy that counts of what was found, where there is one. A copy that stands alone counts.
fn which_counts(first: Option<LoadedCopy>, second: Option<LoadedCopy>) -> Option<Counted>
    requires first { IsLoadedIf first }
    requires second { IsLoadedIf second }
    ensures loaded { IfSome result (λ k. IsLoaded k.copy) }
    ensures counts { IfSome result (λ k. (a b : List ℕ) → HasCopy first a → HasCopy second b → AreCounted k a b) }
    ensures none { result ≡ None → (first ≡ None) × (second ≡ None) }
{
    match first {
        Some(copy) => match second {
            Some(other) => Some(of_two(copy, other)),
            None => Some(Counted {
                copy,
                home: Half::First,
                alike: false,
            }),
        },
        None => match second {
            Some(copy) => Some(Counted {
                copy,
                home: Half::Second,
                alike: false,
            }),
            None => None,
        },
    }
}

// The tables that the copy that counts keeps.
fn kept_in(alloc: Global, counted: Counted) -> Result<Kept, FilesError>
    requires loaded { IsLoaded counted.copy }
    ensures known { IfOk result (λ k. IsKnown k) }
    ensures is_kept { IfOk result (λ k. IsKeptIn k counted) }
    ensures refused { (why : Cause) → IsErrOf result (FilesError.Refused why) → (why ≡ cause.NotKdcfile) × KeepsNoTables counted }
    ensures told { (IsErrOf result FilesError.TwoMeanings → ⊥) × (IsErrOf result FilesError.Failed → ⊥) × ((n : ℕ) → IsErrOf result (FilesError.Spent n) → ⊥) }
{
    let content = bare_content(alloc, &counted.copy.store)?;
    let Some(tables) = tables_of(alloc, &content)? else {
        return Err(FilesError::Refused(UpdateError::NotKdcfile));
    };
    let Counted { copy, home, alike } = counted;
    copy.store.is_in_order();
    let sequence = Some(copy.sequence);
    Ok(Kept {
        file: copy,
        sequence,
        home,
        alike,
        tables,
    })
}

// The first file by itself, where no file is a copy. Both files stay as they are.
fn one_file<T: Twin>(alloc: Global, twin: &mut T) -> Result<Kept, FilesError>
    ensures known { IfOk result (λ k. IsKnown k) }
    ensures is_in { IfOk result (λ k. IsTrue (T.both twin.old).told → IsNoCopy (T.both twin.old).second.holds → IsIn k (T.both twin.old).first.holds (T.both twin.old).second.holds) }
    ensures refused { (why : Cause) → IsErrOf result (FilesError.Refused why) → (why ≡ cause.NotKdcfile) × (IsTrue (T.both twin.old).told → StandsForNoTables (T.both twin.old).first.holds) }
    ensures told { (IsErrOf result FilesError.TwoMeanings → ⊥) × ((n : ℕ) → IsErrOf result (FilesError.Spent n) → ⊥) }
    ensures rests { IsTrue (T.both twin.old).told → RestsBoth (T.both twin.old) (T.both twin.new) (T.leaves twin.old) (T.leaves twin.new) }
    ensures failed { IsErrOf result FilesError.Failed → RoseAt First (T.both twin.old) (T.both twin.new) }
    ensures fine { (IsErrOf result FilesError.Failed → ⊥) → NoneRose (T.both twin.old) (T.both twin.new) }
    ensures frame { FrameBoth (T.both twin.old) (T.both twin.new) }
{
    match open_first(alloc, twin) {
        Ok((store, tables)) => Ok(Kept {
            file: LoadedCopy { store, sequence: 0 },
            sequence: None,
            home: Half::First,
            alike: true,
            tables,
        }),
        Err(OpenError::NotKdcfile) => Err(FilesError::Refused(UpdateError::NotKdcfile)),
        Err(OpenError::Failed) => Err(FilesError::Failed),
        Err(OpenError::OtherGeneration(_)) => Err(FilesError::Memory),
        Err(OpenError::Memory) => Err(FilesError::Memory),
    }
}

// The first file is no KDCFILE by itself. Both files stay as they are.
fn no_file_by_itself<T: Twin>(alloc: Global, twin: &mut T) -> Result<(), FilesError>
    ensures none { OnOk result (IsTrue (T.both twin.old).told → StandsForNoTables (T.both twin.old).first.holds) }
    ensures two { IsErrOf result FilesError.TwoMeanings → IsTrue (T.both twin.old).told → StandsForNoTables (T.both twin.old).first.holds → ⊥ }
    ensures told { ((why : Cause) → IsErrOf result (FilesError.Refused why) → ⊥) × ((n : ℕ) → IsErrOf result (FilesError.Spent n) → ⊥) }
    ensures rests { IsTrue (T.both twin.old).told → RestsBoth (T.both twin.old) (T.both twin.new) (T.leaves twin.old) (T.leaves twin.new) }
    ensures failed { IsErrOf result FilesError.Failed → RoseAt First (T.both twin.old) (T.both twin.new) }
    ensures fine { (IsErrOf result FilesError.Failed → ⊥) → NoneRose (T.both twin.old) (T.both twin.new) }
    ensures frame { FrameBoth (T.both twin.old) (T.both twin.new) }
{
    match open_first(alloc, twin) {
        Ok((_store, _tables)) => Err(FilesError::TwoMeanings),
        Err(OpenError::NotKdcfile) => Ok(()),
        Err(OpenError::Failed) => Err(FilesError::Failed),
        Err(OpenError::OtherGeneration(_)) => Err(FilesError::Memory),
        Err(OpenError::Memory) => Err(FilesError::Memory),
    }
}

// Where the second file has the copy that counts, the first one is no KDCFILE by itself. Both files stay as they are.
fn first_has_none<T: Twin>(alloc: Global, twin: &mut T, home: Half) -> Result<(), FilesError>
    ensures none { OnOk result (home ≡ Second → IsTrue (T.both twin.old).told → StandsForNoTables (T.both twin.old).first.holds) }
    ensures two { IsErrOf result FilesError.TwoMeanings → (home ≡ Second) × (IsTrue (T.both twin.old).told → StandsForNoTables (T.both twin.old).first.holds → ⊥) }
    ensures told { ((why : Cause) → IsErrOf result (FilesError.Refused why) → ⊥) × ((n : ℕ) → IsErrOf result (FilesError.Spent n) → ⊥) }
    ensures rests { IsTrue (T.both twin.old).told → RestsBoth (T.both twin.old) (T.both twin.new) (T.leaves twin.old) (T.leaves twin.new) }
    ensures failed { IsErrOf result FilesError.Failed → RoseAt First (T.both twin.old) (T.both twin.new) }
    ensures fine { (IsErrOf result FilesError.Failed → ⊥) → NoneRose (T.both twin.old) (T.both twin.new) }
    ensures frame { FrameBoth (T.both twin.old) (T.both twin.new) }
{
    match home {
        Half::First => Ok(()),
        Half::Second => no_file_by_itself(alloc, twin),
    }
}

// What was found in two files keeps. Both stay as they are.
fn find_in<T: Twin>(
    alloc: Global,
    twin: &mut T,
    first: Option<LoadedCopy>,
    second: Option<LoadedCopy>,
) -> Result<Kept, FilesError>
    requires first { IsLoadedIf first }
    requires second { IsLoadedIf second }
    requires first_has { IsTrue (T.both twin.old).told → HasCopy first (T.both twin.old).first.holds }
    requires second_has { IsTrue (T.both twin.old).told → HasCopy second (T.both twin.old).second.holds }
    requires at_rest { IsTrue (T.both twin.old).told → BothRest (T.both twin.old) (T.leaves twin.old) }
    ensures known { IfOk result (λ k. IsKnown k) }
    ensures is_in { IfOk result (λ k. IsTrue (T.both twin.old).told → IsIn k (T.both twin.old).first.holds (T.both twin.old).second.holds) }
    ensures refused { (why : Cause) → IsErrOf result (FilesError.Refused why) → (why ≡ cause.NotKdcfile) × (IsTrue (T.both twin.old).told → AreNone (T.both twin.old).first.holds (T.both twin.old).second.holds) }
    ensures two { IsErrOf result FilesError.TwoMeanings → IsTrue (T.both twin.old).told → HaveTwoMeanings (T.both twin.old).first.holds (T.both twin.old).second.holds }
    ensures told { (n : ℕ) → IsErrOf result (FilesError.Spent n) → ⊥ }
    ensures rests { IsTrue (T.both twin.old).told → RestsBoth (T.both twin.old) (T.both twin.new) (T.leaves twin.old) (T.leaves twin.new) }
    ensures failed { IsErrOf result FilesError.Failed → RoseAt First (T.both twin.old) (T.both twin.new) }
    ensures fine { (IsErrOf result FilesError.Failed → ⊥) → NoneRose (T.both twin.old) (T.both twin.new) }
    ensures frame { FrameBoth (T.both twin.old) (T.both twin.new) }
{
    let Some(counted) = which_counts(first, second) else {
        return one_file(alloc, twin);
    };
    first_has_none(alloc, twin, counted.home)?;
    kept_in(alloc, counted)
}

/// What two files keep, whatever their texts are. Both stay as they are.
pub(crate) fn find<T: Twin>(alloc: Global, twin: &mut T) -> Result<Kept, FilesError>
    ensures known { IfOk result (λ k. IsKnown k) }
    ensures is_in { IfOk result (λ k. IsTrue (T.both twin.old).told → IsIn k (T.both twin.old).first.holds (T.both twin.old).second.holds) }
    ensures refused { (why : Cause) → IsErrOf result (FilesError.Refused why) → (why ≡ cause.NotKdcfile) × (IsTrue (T.both twin.old).told → AreNone (T.both twin.old).first.holds (T.both twin.old).second.holds) }
    ensures two { IsErrOf result FilesError.TwoMeanings → IsTrue (T.both twin.old).told → HaveTwoMeanings (T.both twin.old).first.holds (T.both twin.old).second.holds }
    ensures told { (n : ℕ) → IsErrOf result (FilesError.Spent n) → ⊥ }
    ensures at_rest { OnOk result (IsTrue (T.both twin.old).told → BothRest (T.both twin.new) (T.leaves twin.new)) }
    ensures rests { IsTrue (T.both twin.old).told → RestsBoth (T.both twin.old) (T.both twin.new) (T.leaves twin.old) (T.leaves twin.new) }
    ensures failed { IsErrOf result FilesError.Failed → RoseAt First (T.both twin.old) (T.both twin.new) ⊎ RoseAt Second (T.both twin.old) (T.both twin.new) }
    ensures fine { (IsErrOf result FilesError.Failed → ⊥) → NoneRose (T.both twin.old) (T.both twin.new) }
    ensures frame { FrameBoth (T.both twin.old) (T.both twin.new) }
{
    let (first, second) = read_both(alloc, twin)?;
    find_in(alloc, twin, copy_in(first), copy_in(second))
}
