//! Services with the classes of their TACs, and what of them the limits ask for.
ghost use Rattle.std.specs.Prelude.{◌≡◌};
ghost use Rattle.abstract_monitor.specs.Endings.{is_asynchronous};
ghost use Rattle.service_ends.specs.Kinds.{kind_of};

use kdcs_types::ServiceId;

/// A service with the class of its current TAC: 1 to 16, and 0 for none.
pub type Classed = (ServiceId, u8);

/// All that the limits ask of a service. Services of one kind are allowed together.
#[derive(Clone, Copy, PartialEq, Eq, PartialOrd, Ord)]
pub(crate) struct Kind {
    pub(crate) asynchronous: bool,
    /// The class of its current TAC.
    pub(crate) class: u8,
}

pub(crate) fn is_asynchronous(id: &ServiceId) -> bool
    ensures { result ≡ is_asynchronous id.now }
{
    match id {
        ServiceId::Dialogue(_) => false,
        ServiceId::Asynchronous(_) => true,
    }
}

pub(crate) fn kind_of(entry: &Classed) -> Kind
    ensures { result ≡ kind_of entry.now }
{
    Kind {
        asynchronous: is_asynchronous(&entry.0),
        class: entry.1,
    }
}
