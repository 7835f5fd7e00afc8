//! The key of some turns.
ghost use Rattle.std.specs.Prelude.{◌≡◌, IfOk, IfSome, true};
ghost use Rattle.abstract_monitor.specs.Commands.{started};
ghost use Rattle.laws_of_runs.specs.Applied.{applied};
ghost use Rattle.lab_walks.specs.{Ahead.{IsWhole}, Frames.{IsWay, turns_in}};
ghost use Rattle.lab_orders.specs.{Alike.{IsKeyedIf, IsMadeOf}, Finding.{CanStart}, Searching.{IsBesideAt}};

use crate::key::Key;
use crate::lines::by_name;
use crate::path::Path;
use crate::reach::{Place, reach};
use abstract_monitor::Command;
use application_types::generation::Generation;
use application_types::units::Units;
use kd_base::OutOfMemory;
use kdcs_types::Tables;
use lab_states::Outline;
use lab_walks::Frame;
use monitor_core::Core;
use std::alloc::Global;

// Whether each line has its end.
fn is_whole(text: &[u8]) -> bool
    ensures { result ≡ true → IsWhole text.now }
{
    match text.split_last() {
        Some((last, _)) => *last == b'\n',
        None => true,
    }
}

// A number that is the same for the same states: of each open transaction it takes in how many statements are done.
fn mark_of(core: &Core) -> u64 {
    let mut mark: u64 = 0;
    for (_, transaction) in core.parts().active.iter() {
        mark = mark
            .wrapping_mul(1_000_003)
            .wrapping_add(transaction.statements)
            .wrapping_add(1);
    }
    mark
}

// The key of turns that lead to this place.
fn key_at(alloc: Global, core: &Core, path: &Path, place: Place) -> Result<Option<Key>, OutOfMemory>
    requires { IsBesideAt core.now path.now place }
    ensures { IfOk result (λ key. IfSome key (IsMadeOf core.now path.now place)) }
{
    let Place::Inside(left, room, behind) = place else {
        return Ok(None);
    };
    if !is_whole(path.sent.as_slice()) {
        return Ok(None);
    }
    let lines = by_name(alloc, path.sent.as_slice())?;
    let outline = Outline::of(alloc, core)?;
    Ok(Some(Key {
        mark: mark_of(core),
        left,
        room,
        behind,
        signs: path.signs,
        serial: path.serial,
        lines,
        outline,
    }))
}

/// The key of these turns. There is none where they lead to the end of the script, where a RUN ended while there was work,
/// or where the last line that was sent has no end.
pub(crate) fn key_of(
    alloc: Global,
    generation: Generation,
    units: Units,
    tables: &Tables,
    commands: &[Command],
    frames: &[Frame],
) -> Result<(Generation, Units, Option<Key>), OutOfMemory>
    requires start { CanStart (applied generation units) tables.now commands.now generation units }
    requires way { IsWay (applied generation units) commands.now (started (applied generation units) tables.now) frames.now }
    ensures again { IfOk result (λ n. CanStart (applied generation units) tables.now commands.now n.0 n.1) }
    ensures keyed { IfOk result (λ n. IsKeyedIf (applied generation units) tables.now commands.now (turns_in frames.now) n.2) }
{
    let (core, path, place) = reach(alloc, generation, units, tables, commands, frames, true)?;
    let key = key_at(alloc, &core, &path, place)?;
    let (generation, units) = core.into_application();
    Ok((generation, units, key))
}
