//! How a request is answered for an area that another service holds.
ghost use Rattle.std.specs.Prelude.{◌≡◌};
ghost use Rattle.abstract_monitor.specs.Locks.{refused_by};

use abstract_monitor::LockAnswer;

/// The answer where the wait would close a deadlock, or has lasted for RESWAIT. A deadlock is answered before the wait is
/// looked at.
pub fn refused(deadlock: bool, late: bool) -> LockAnswer
    ensures { result ≡ refused_by deadlock late }
{
    match (deadlock, late) {
        (true, _) => LockAnswer::Deadlock,
        (false, true) => LockAnswer::Busy,
        (false, false) => LockAnswer::Wait,
    }
}
