//! Adding to a list.
ghost use Rattle.std.specs.Prelude.{◌≡◌, [], ◌∷◌, ◌++◌, OnOk};

use kd_base::OutOfMemory;

/// Adds an item at the end, or changes nothing.
pub(crate) fn push<T: Drop>(items: &mut Vec<T>, item: T) -> Result<(), OutOfMemory>
    ensures { OnOk result (items.new.items ≡ items.old.items ++ item ∷ []) }
{
    Ok(items.push(item)?)
}
