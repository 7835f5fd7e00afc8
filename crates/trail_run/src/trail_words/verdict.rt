//! What an audit of a trail finds.
ghost use Rattle.std.specs.Prelude.{◌≡◌, IfOk};
ghost use Rattle.std.specs.String.{string_bytes};
ghost use Rattle.trail_run.specs.Auditing.{verdict_line};

use std::alloc::{AllocError, Global};

/// What an audit of a trail finds.
#[derive(Clone, Copy, Debug, PartialEq, Eq)]
pub enum Verdict {
    /// All entries hold, and there are so many.
    Holds(u64),
    /// The entry with this number does not hold; the first has number 1, and all before it hold.
    Differs(u64),
}

/// The line that says it.
pub fn verdict_line(alloc: Global, verdict: &Verdict) -> Result<String, AllocError>
    ensures { IfOk result (λ line. string_bytes line ≡ verdict_line verdict.now) }
{
    match verdict {
        Verdict::Holds(count) => format!(in alloc; "AUDIT OK {count}\n"),
        Verdict::Differs(number) => format!(in alloc; "AUDIT {number}\n"),
    }
}
