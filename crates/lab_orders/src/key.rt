//! By what turns that lead into a RUN are told from others.
ghost use Rattle.std.specs.Prelude.{◌≡◌, true};
ghost use Rattle.lab_orders.specs.Alike.{IsNoWorse};

use kd_base::{Bytes, Sequence};
use lab_states::Outline;
use lab_walks::Signs;

/// What is to come after some turns that lead into a RUN depends on no more than this.
#[derive(Drop)]
pub(crate) struct Key {
    /// Keys that say the same have the same number here, and most others have another one.
    pub(crate) mark: u64,
    /// How many turns the RUN has left behind the next one.
    pub(crate) left: u64,
    /// How many turns without effect there may have been in it.
    pub(crate) room: u64,
    /// How many commands stand behind it.
    pub(crate) behind: usize,
    /// What was seen.
    pub(crate) signs: Signs,
    /// No two transactions had begun and were open at once.
    pub(crate) serial: bool,
    /// The lines that were sent, by their names.
    pub(crate) lines: Sequence<Bytes>,
    /// The state of the monitor.
    pub(crate) outline: Outline,
}

impl Key {
    // Whether the rest is the same, with no fewer turns without effect.
    fn has_no_less(&self, other: &Key) -> bool
        ensures { result ≡ true → IsNoWorse self.now other.now }
    {
        self.left == other.left
            && self.behind == other.behind
            && self.room >= other.room
            && self.serial == other.serial
            && self.signs == other.signs
            && self.lines.as_slice() == other.lines.as_slice()
            && self.outline.is_same(&other.outline)
    }

    /// Whether it says the same as another one, with no fewer turns without effect.
    pub(crate) fn is_no_worse(&self, other: &Key) -> bool
        ensures { result ≡ true → IsNoWorse self.now other.now }
    {
        self.mark == other.mark && self.has_no_less(other)
    }
}
