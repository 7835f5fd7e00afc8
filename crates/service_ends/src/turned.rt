//! What a turn did.
ghost use Rattle.std.specs.Prelude.{◌≡◌, [], None};

use kdcs_types::Acts;
use std::alloc::Global;
use sync_points::KeptRecord;

/// What a turn of a task did.
#[derive(Drop)]
pub struct Turned {
    /// False where a free task found no work, or a request waits.
    pub moved: bool,
    pub acts: Acts,
    /// What a transaction that made a commit keeps for its replay. Clauses alone speak of it.
    pub settled: Option<KeptRecord>,
}

impl Turned {
    /// A turn without acts. It takes no memory.
    pub fn quiet(alloc: Global, moved: bool) -> Turned
        ensures { result ≡ record { moved = moved; acts = []; settled = None } }
    {
        Turned {
            moved,
            acts: Acts::new(alloc),
            settled: None,
        }
    }
}
