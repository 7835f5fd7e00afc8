//! Who may start what: the rule of locks and keys.
ghost use Rattle.std.specs.Prelude.{◌≡◌};
ghost use Rattle.abstract_monitor.specs.Access.{denial_of};

use abstract_monitor::Denial;
use application_types::generation::Generation;
use kd_base::Name;

/// Why this user, at a terminal of this LTERM, may not start a service with this TAC; `None` where the TAC has no lock, or
/// both have its code. The user's keys are asked first. It takes no memory.
#[tactic(auto, unfolding(abstract_monitor::specs::Access::denial_of))]
pub fn decide(generation: &Generation, user: Name, lterm: Name, tac: Name) -> Option<Denial>
    ensures { result ≡ denial_of generation.now user lterm tac }
{
    let code = generation.lock_of(tac)?;
    if !generation.user_keys(user).has(code) {
        return Some(Denial::User(code));
    }
    if !generation.lterm_keys(lterm).has(code) {
        return Some(Denial::Lterm(code));
    }
    None
}
