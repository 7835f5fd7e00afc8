//! Which of two files is missing: it is empty or not there, beside a copy with commits.
ghost use Rattle.std.specs.Prelude.{◌≡◌, ◌⊎◌, ℕ, List, IsTrue, IfOk, IfSome, IfNone, IsErrOf, true, false, []};
ghost use Rattle.kd_device.specs.{declared.half.Half.{Half as Side}, declared.half.Half.TheVariants.{First, Second}, Twin.{half_state, other}};
ghost use Rattle.kdcfile_copies.specs.Finding.{IsAnswer, IsFound};
ghost use Rattle.kdcfile_double.specs.{MakingLaws.{RestsBoth}, Twice.{FrameBoth, NoneRose, RoseAt}};
ghost use Rattle.call_parts.specs.Missing.{HasCommits, IsMissing};

use kd_device::{DeviceError, Half, Twin};
use kdcfile_copies::Found;
use kdcfile_copies::kdcfile_halves::load_half;
use std::alloc::Global;

// Whether it is a copy that a commit has changed since it was made.
fn is_changed(found: &Found) -> bool
    requires { IsFound found.now }
    ensures yes { result ≡ true → (bytes : List ℕ) → IsAnswer found.now bytes → HasCommits bytes }
    ensures no { result ≡ false → (bytes : List ℕ) → IsAnswer found.now bytes → HasCommits bytes → ⊥ }
{
    match found {
        Found::Empty => false,
        Found::NoCopy => false,
        Found::Copy(copy) => copy.sequence != 0,
    }
}

// Whether the file of this half is empty.
fn is_empty<T: Twin>(twin: &mut T, half: Half) -> Result<bool, DeviceError>
    ensures yes { IfOk result (λ yes. IsTrue (T.both twin.old).told → yes ≡ true → (half_state half (T.both twin.old)).holds ≡ []) }
    ensures no { IfOk result (λ yes. IsTrue (T.both twin.old).told → yes ≡ false → (half_state half (T.both twin.old)).holds ≡ [] → ⊥) }
    ensures rests { IsTrue (T.both twin.old).told → RestsBoth (T.both twin.old) (T.both twin.new) (T.leaves twin.old) (T.leaves twin.new) }
    ensures failed { IsErrOf result DeviceError.Failed → RoseAt half (T.both twin.old) (T.both twin.new) }
    ensures fine { (IsErrOf result DeviceError.Failed → ⊥) → NoneRose (T.both twin.old) (T.both twin.new) }
    ensures frame { FrameBoth (T.both twin.old) (T.both twin.new) }
{
    let size = twin.size(half)?;
    Ok(size == 0)
}

// Whether the file of this half is a copy with commits.
fn has_commits<T: Twin>(alloc: Global, twin: &mut T, half: Half) -> Result<bool, DeviceError>
    ensures yes { IfOk result (λ yes. IsTrue (T.both twin.old).told → yes ≡ true → HasCommits (half_state half (T.both twin.old)).holds) }
    ensures no { IfOk result (λ yes. IsTrue (T.both twin.old).told → yes ≡ false → HasCommits (half_state half (T.both twin.old)).holds → ⊥) }
    ensures rests { IsTrue (T.both twin.old).told → RestsBoth (T.both twin.old) (T.both twin.new) (T.leaves twin.old) (T.leaves twin.new) }
    ensures failed { IsErrOf result DeviceError.Failed → RoseAt half (T.both twin.old) (T.both twin.new) }
    ensures fine { (IsErrOf result DeviceError.Failed → ⊥) → NoneRose (T.both twin.old) (T.both twin.new) }
    ensures frame { FrameBoth (T.both twin.old) (T.both twin.new) }
{
    let found = load_half(alloc, twin, half)?;
    Ok(is_changed(&found))
}

// Whether the file of this half is missing. The one beside it is read only where this one is empty.
fn is_missing<T: Twin>(
    alloc: Global,
    twin: &mut T,
    half: Half,
    beside: Half,
) -> Result<bool, DeviceError>
    requires { beside ≡ other half }
    ensures yes { IfOk result (λ yes. IsTrue (T.both twin.old).told → yes ≡ true → IsMissing half (T.both twin.old).first.holds (T.both twin.old).second.holds) }
    ensures no { IfOk result (λ yes. IsTrue (T.both twin.old).told → yes ≡ false → IsMissing half (T.both twin.old).first.holds (T.both twin.old).second.holds → ⊥) }
    ensures rests { IsTrue (T.both twin.old).told → RestsBoth (T.both twin.old) (T.both twin.new) (T.leaves twin.old) (T.leaves twin.new) }
    ensures failed { IsErrOf result DeviceError.Failed → RoseAt First (T.both twin.old) (T.both twin.new) ⊎ RoseAt Second (T.both twin.old) (T.both twin.new) }
    ensures fine { (IsErrOf result DeviceError.Failed → ⊥) → NoneRose (T.both twin.old) (T.both twin.new) }
    ensures frame { FrameBoth (T.both twin.old) (T.both twin.new) }
{
    if is_empty(twin, half)? {
        has_commits(alloc, twin, beside)
    } else {
        Ok(false)
    }
}

/// Tells which file of the two is empty or not there beside a copy with commits. Both stay as they are.
pub(crate) fn missing_half<T: Twin>(
    alloc: Global,
    twin: &mut T,
) -> Result<Option<Half>, DeviceError>
    ensures some { IfOk result (λ m. IfSome m (λ half. IsTrue (T.both twin.old).told → IsMissing half (T.both twin.old).first.holds (T.both twin.old).second.holds)) }
    ensures none { IfOk result (λ m. IfNone m (IsTrue (T.both twin.old).told → (half : Side) → IsMissing half (T.both twin.old).first.holds (T.both twin.old).second.holds → ⊥)) }
    ensures rests { IsTrue (T.both twin.old).told → RestsBoth (T.both twin.old) (T.both twin.new) (T.leaves twin.old) (T.leaves twin.new) }
    ensures failed { IsErrOf result DeviceError.Failed → RoseAt First (T.both twin.old) (T.both twin.new) ⊎ RoseAt Second (T.both twin.old) (T.both twin.new) }
    ensures fine { (IsErrOf result DeviceError.Failed → ⊥) → NoneRose (T.both twin.old) (T.both twin.new) }
    ensures frame { FrameBoth (T.both twin.old) (T.both twin.new) }
{
    if is_missing(alloc, twin, Half::First, Half::Second)? {
        return Ok(Some(Half::First));
    }
    if is_missing(alloc, twin, Half::Second, Half::First)? {
        return Ok(Some(Half::Second));
    }
    Ok(None)
}
