//! Sets of names, which answer without going over them.
ghost use Rattle.std.specs.Prelude.{◌≡◌, ◌||◌, ℕ, List, OnOk, bytes_eq, false};
ghost use Rattle.unit_read.specs.Names.{holds};

use kd_base::{Bytes, OutOfMemory, ProgName};
use std::alloc::Global;
use std::collections::BTreeSet;

/// The names of fields, or of labels.
pub(crate) type Names = BTreeSet<Bytes>;

/// The names of units.
pub(crate) type UnitNames = BTreeSet<ProgName>;

pub(crate) fn no_names(alloc: Global) -> Names
    ensures { (q : List ℕ) → holds result q ≡ false }
{
    BTreeSet::new(alloc)
}

pub(crate) fn no_unit_names(alloc: Global) -> UnitNames
    ensures { (q : List ℕ) → holds result q ≡ false }
{
    BTreeSet::new(alloc)
}

pub(crate) fn holds(names: &Names, name: &Bytes) -> bool
    ensures { result ≡ holds names.now name.now }
{
    names.contains(name)
}

pub(crate) fn holds_unit(names: &UnitNames, name: &ProgName) -> bool
    ensures { result ≡ holds names.now name.now }
{
    names.contains(name)
}

pub(crate) fn add_name(names: &mut Names, name: &Bytes) -> Result<(), OutOfMemory>
    ensures { OnOk result ((q : List ℕ) → holds names.new q ≡ (holds names.old q || bytes_eq name.now q)) }
{
    names.insert(name.clone()?)?;
    Ok(())
}

pub(crate) fn add_unit_name(names: &mut UnitNames, name: &ProgName) -> Result<(), OutOfMemory>
    ensures { OnOk result ((q : List ℕ) → holds names.new q ≡ (holds names.old q || bytes_eq name.now q)) }
{
    names.insert(*name)?;
    Ok(())
}
