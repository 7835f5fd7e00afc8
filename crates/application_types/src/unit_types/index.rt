//! Where the fields and labels of a unit stand, by name.
ghost use Rattle.std.specs.Prelude.{IfOk, OnOk};
ghost use Rattle.application_types.specs.Index.{PutsFirst, AreFieldPlaces, AreLabelPlaces};

use crate::unit_types::unit::Field;
use kd_base::{Bytes, OutOfMemory};
use std::alloc::Global;
use std::collections::BTreeMap;

// Puts what is at a name, unless an earlier one of this name is there.
fn put_first<P: Drop>(
    alloc: Global,
    places: &mut BTreeMap<Vec<u8>, P>,
    name: &[u8],
    place: P,
) -> Result<(), OutOfMemory>
    ensures { OnOk result (PutsFirst places.old places.new name.now place) }
{
    if !places.contains_key(name) {
        places.insert(Vec::from_slice(alloc, name)?, place)?;
    }
    Ok(())
}

/// The place, from 0, of the first field of each name.
pub(crate) fn field_index(
    alloc: Global,
    fields: &[Field],
) -> Result<BTreeMap<Vec<u8>, usize>, OutOfMemory>
    ensures { IfOk result (λ places. AreFieldPlaces places fields.now) }
{
    let mut places: BTreeMap<Vec<u8>, usize> = BTreeMap::new(alloc);
    for (i, field) in fields.iter().enumerate() {
        put_first(alloc, &mut places, field.name.as_slice(), i)?;
    }
    Ok(places)
}

/// The number of the statement that the first label of each name is before.
pub(crate) fn label_index(
    alloc: Global,
    labels: &[(Bytes, u32)],
) -> Result<BTreeMap<Vec<u8>, u32>, OutOfMemory>
    ensures { IfOk result (λ places. AreLabelPlaces places labels.now) }
{
    let mut places: BTreeMap<Vec<u8>, u32> = BTreeMap::new(alloc);
    for (label, place) in labels {
        put_first(alloc, &mut places, label.as_slice(), *place)?;
    }
    Ok(places)
}
