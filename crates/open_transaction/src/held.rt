//! The areas that a transaction holds.
ghost use Rattle.std.specs.Prelude.{◌≡◌, filter, not};
ghost use Rattle.kdcs_types.specs.{declared.key.Area.{Area as Held}, Keys.{area_eq}};

use kd_base::Sequence;
use kdcs_types::Area;
use std::alloc::Global;
use std::mem;

/// The areas that a transaction holds, in the order in which it asked for them.
pub type HeldAreas = Sequence<Area>;

/// Takes an area out. It takes no memory.
pub fn release(alloc: Global, areas: &mut HeldAreas, area: &Area)
    ensures { areas.new ≡ filter (λ (held : Held). not (area_eq held area.now)) areas.old }
{
    let mut left = mem::replace(areas, HeldAreas::new(alloc)).into_vec();
    left.retain(|held| held != area);
    *areas = HeldAreas::from_vec(left);
}
