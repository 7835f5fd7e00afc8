//! When jobs are due: the moment that a DPUT names, and the clock that it comes to.
//!
//! It stands on the definitions of the abstract monitor. Its contracts give the layers above it the exact moment and
//! clock.
ghost use Rattle.std.specs.Prelude.{◌≡◌, ◌≤◌, IfSome};
ghost use Rattle.kd_base.specs.Limits.{last_clock};
ghost use Rattle.abstract_monitor.specs.{Calls.{moment_of}, Endings.{due_at}};
ghost use Rattle.service_parts.specs.Ticks.{last_ticks, ticks_of};

use abstract_monitor::Due;
use kd_base::Mode;

/// The moment after so many days, hours, minutes and seconds, or when the clock shows them, in ticks of a second. `None`
/// where there are more than 9,999 days, 23 hours, 59 minutes or 59 seconds.
#[tactic(auto, unfolding(abstract_monitor::specs::Calls::moment_of))]
pub fn moment(mode: Mode, d: u64, h: u64, m: u64, s: u64) -> Option<Due>
    ensures exact { result ≡ moment_of mode d h m s }
    ensures ticks { IfSome result (λ due. ticks_of due ≤ last_ticks) }
{
    if d > 9_999 || h > 23 || m > 59 || s > 59 {
        return None;
    }
    let ticks = 86_400 * d + 3_600 * h + 60 * m + s;
    Some(match mode {
        Mode::Relative => Due::After(ticks),
        Mode::Absolute => Due::At(ticks),
    })
}

/// The clock at which a job of a synchronisation point at this clock is due. A moment that has passed is due at once.
pub fn due_at(due: Due, clock: u64) -> u64
    requires clock { clock ≤ last_clock }
    requires ticks { ticks_of due ≤ last_ticks }
    ensures { result ≡ due_at due clock }
{
    match due {
        Due::After(ticks) => clock + ticks,
        Due::At(ticks) => ticks.max(clock),
    }
}
