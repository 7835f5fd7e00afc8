//! Whether a turn has an effect.
ghost use Rattle.std.specs.Prelude.{◌≡◌, ◌||◌, not};
ghost use Rattle.lab_walks.specs.Orders.{same_wait};

use kdcs_types::Area;

// The same request, since the same clock.
fn same_wait(one: Option<(Area, u64)>, other: Option<(Area, u64)>) -> bool
    ensures { result ≡ same_wait one other }
{
    match (one, other) {
        (None, None) => true,
        (Some(one), Some(other)) => one.0 == other.0 && one.1 == other.1,
        (None, Some(_)) | (Some(_), None) => false,
    }
}

/// A turn has an effect where it moved something, or where the request of its service, with the clock since which it waits, is
/// another one after it than before.
pub fn shows_effect(moved: bool, before: Option<(Area, u64)>, after: Option<(Area, u64)>) -> bool
    ensures { result ≡ (moved || not (same_wait before after)) }
{
    moved || !same_wait(before, after)
}
