//! Which services outlive a stop.
ghost use Rattle.std.specs.Prelude.{◌≡◌};
ghost use Rattle.abstract_monitor.specs.Endings.{is_durable};

use application_types::generation::Generation;
use kdcs_types::ServiceId;

/// Whether the service outlives a stop: not a dialogue service of a user with RESTART=NO.
pub fn is_durable(generation: &Generation, id: ServiceId) -> bool
    ensures { result ≡ is_durable generation.now id }
{
    match id {
        ServiceId::Dialogue(user) => match generation.user(user) {
            Some(entry) => entry.restart,
            None => false,
        },
        ServiceId::Asynchronous(_) => true,
    }
}
