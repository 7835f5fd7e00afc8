//! What is kept of a run as it goes on.
ghost use Rattle.std.specs.{Prelude.{◌≡◌, ◌++◌, OnOk}, Option.{option_to_list}};
ghost use Rattle.trail_run.specs.Entries.{changes_among, entry_by};

use audit_trail::{By, TrailEntries, TrailEntry};
use kd_base::OutOfMemory;
use kdcs_types::{Act, Acts, Changes, Tables};

/// The durable tables beside a core, and the entries of the commits so far.
#[derive(Drop)]
pub(crate) struct Kept {
    pub(crate) durable: Tables,
    pub(crate) entries: TrailEntries,
}

// What the commit among these acts changes.
fn changes_among(acts: Acts) -> Option<Changes>
    ensures { result ≡ changes_among acts }
{
    for act in acts.into_vec() {
        if let Act::Commit(changes) = act {
            return Some(changes);
        }
    }
    None
}

/// The commit among these acts is an entry behind those before.
pub(crate) fn put_entry(
    entries: &mut TrailEntries,
    by: Option<By>,
    acts: Acts,
) -> Result<(), OutOfMemory>
    ensures { OnOk result (entries.new ≡ entries.old ++ option_to_list (entry_by (changes_among acts) by)) }
{
    let (Some(changes), Some(by)) = (changes_among(acts), by) else {
        return Ok(());
    };
    entries.push(TrailEntry { by, changes })
}
