//! What the queue keeps of a job.
ghost use Rattle.std.specs.Prelude.{◌≡◌};
ghost use Rattle.open_transaction.specs.DueIndex.{for_target, key_of, with_mark};

use crate::async_queue::due::DueKey;
use kdcs_types::Target;

/// A job of the tables, without its message.
#[derive(Clone, Copy)]
pub struct QueuedJob {
    pub number: u64,
    pub to: Target,
    /// From this clock on it is due.
    pub due: u64,
    /// An open service has taken it.
    pub taken: bool,
}

/// What is kept under the number of a job.
#[derive(Clone, Copy)]
pub(crate) struct Waiting {
    pub(crate) to: Target,
    pub(crate) due: u64,
    pub(crate) taken: bool,
}

impl Waiting {
    // The same with this mark.
    pub(crate) fn with_mark(&self, taken: bool) -> Waiting
        ensures { result ≡ with_mark taken self.now }
    {
        Waiting {
            to: self.to,
            due: self.due,
            taken,
        }
    }

    // The same for another target, and free.
    pub(crate) fn for_target(&self, to: Target) -> Waiting
        ensures { result ≡ for_target to self.now }
    {
        Waiting {
            to,
            due: self.due,
            taken: false,
        }
    }

    // Where the job with this number stands among all that are due.
    pub(crate) fn key(&self, number: u64) -> DueKey
        ensures { result ≡ key_of number self.now }
    {
        DueKey {
            to: self.to,
            due: self.due,
            number,
        }
    }
}
