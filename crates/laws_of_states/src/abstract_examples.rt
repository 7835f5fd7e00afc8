//! Worked examples of the abstract monitor: what scripts of the sample application SHOP print, which tables they leave,
//! that each of their commits is that of its record run in one go, and the first lines of `make N`.
//!
//! It stands on the definitions of the monitor and on their laws. The functions do nothing: their contracts are equations
//! with lines that were written down before the definitions, and hold by computation. So they say to every crate above
//! that the definitions mean what they are to mean.
ghost use Rattle.laws_of_states.specs.SampleRows.{ClockRows, DialogueRows, LockRows, EndRows, HelloRows, JobRows, AccessRows, RuleRows, SerialRows, MadeRows, RedeliveryRows};

/// The clock.
pub fn clock_rows()
    ensures { ClockRows }
{}

/// Dialogue steps, and what a second run finds.
pub fn dialogue_rows()
    ensures { DialogueRows }
{}

/// Locks, and interleaved services.
pub fn lock_rows()
    ensures { LockRows }
{}

/// The other ways to end.
pub fn end_rows()
    ensures { EndRows }
{}

/// HELLO with other statements.
pub fn hello_rows()
    ensures { HelloRows }
{}

/// Jobs.
pub fn job_rows()
    ensures { JobRows }
{}

/// Locks of TACs and key sets.
pub fn access_rows()
    ensures { AccessRows }
{}

/// Repeated delivery, and the dead letter queue.
pub fn redelivery_rows()
    ensures { RedeliveryRows }
{}

/// Rules of calls, PENDs and inputs, one by one.
pub fn rule_rows()
    ensures { RuleRows }
{}

/// Each commit of a transaction is that of its record, run in one go.
pub fn serial_rows()
    ensures { SerialRows }
{}

/// The made input, without its digest.
pub fn made_rows()
    ensures { MadeRows }
{}
