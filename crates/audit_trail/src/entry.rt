//! A trail, and its entries.

use kd_base::{Name, Sequence};
use kdcs_types::{Changes, Settled, Tables};

/// What made a commit.
#[derive(Drop)]
pub enum By {
    /// A TICK of so many ticks.
    Tick(u64),
    /// KDCOUT or PRINT at this LTERM.
    Shown(Name),
    /// A transaction, with what it kept for its replay.
    Transaction(Settled),
}

/// A commit of a run: what made it, and what it changed.
#[derive(Drop)]
pub struct TrailEntry {
    pub by: By,
    pub changes: Changes,
}

/// The commits of a run, in their order.
pub type TrailEntries = Sequence<TrailEntry>;

/// What a run kept of its commits.
#[derive(Drop)]
pub struct Trail {
    /// The fingerprint of the texts that were run.
    pub fingerprint: [u8; 32],
    /// The tables at the start.
    pub start: Tables,
    pub entries: TrailEntries,
}
