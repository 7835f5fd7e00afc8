//! Which services suit.
ghost use Rattle.std.specs.{Prelude.{◌≡◌, ◌&&◌, length, nat_le, sum_by}, FinMap.{is_sorted}, List.{list_all}};
ghost use Rattle.abstract_monitor.specs.{Bytes.{Bytes as Content, bytes_cmp}, Endings.{is_asynchronous, is_durable}};
ghost use Rattle.laws_of_states.specs.Suits.{awaits_rightly, fits_content, last_fits, lterm_suits, owner_suits, service_suits};
ghost use Rattle.kdcs_types.specs.declared.service.Service.{Service as Row};
ghost use Rattle.table_fit.specs.Charging.{names_suit};

use crate::names::{fits_content, fits_message, has_kind, is_lterm, is_user};
use application_types::generation::Generation;
use kd_base::{Bytes, Name};
use kdcs_types::{Service, ServiceId};
use record_codec::ascend;
use service_parts::service_runs::is_durable;

/// The greatest number of handed parts.
const MOST_PARTS: usize = 16;

// The LTERM of an asynchronous service is declared.
fn lterm_suits(generation: &Generation, lterm: &Option<Name>) -> bool
    ensures { result ≡ lterm_suits generation.now lterm.now }
{
    match lterm {
        Some(name) => is_lterm(generation, *name),
        None => true,
    }
}

// A dialogue service is of its user; an asynchronous one awaits nothing, and has no handed part and no last message.
fn owner_suits(service: &Service) -> bool
    ensures { result ≡ owner_suits service.now.id service.now }
{
    match service.id {
        ServiceId::Dialogue(user) => user == service.user,
        ServiceId::Asynchronous(_) => {
            !service.awaits && service.handed.as_slice().is_empty() && service.last.is_none()
        }
    }
}

fn is_asynchronous(id: &ServiceId) -> bool
    ensures { result ≡ is_asynchronous id.now }
{
    matches!(id, ServiceId::Asynchronous(_))
}

fn lssbs_fit(lssbs: &[(Name, Bytes)]) -> bool
    ensures { result ≡ list_all (λ (l : Content × Content). fits_content l.1) lssbs.now }
{
    lssbs.iter().all(|lssb| fits_content(&lssb.1))
}

// There are at most so many LSSBs, in order.
fn lssbs_suit(lssbs: &[(Name, Bytes)], most: u32) -> bool
    ensures { result ≡ (nat_le (length lssbs.now) most && is_sorted bytes_cmp lssbs.now && list_all (λ (l : Content × Content). fits_content l.1) lssbs.now) }
{
    lssbs.len() as u64 <= u64::from(most) && ascend(lssbs) && lssbs_fit(lssbs)
}

// An awaiting service has a last message and no handed part.
fn awaits_rightly(service: &Service) -> bool
    ensures { result ≡ awaits_rightly service.now service.now.awaits }
{
    !service.awaits || service.last.is_some() && service.handed.as_slice().is_empty()
}

fn last_fits(generation: &Generation, last: &Option<Bytes>) -> bool
    ensures { result ≡ last_fits generation.now last.now }
{
    match last {
        Some(message) => fits_message(generation, message),
        None => true,
    }
}

// The parts have at most so many bytes together.
fn parts_fit(parts: &[Bytes], nb: u32) -> bool
    ensures { result ≡ nat_le (sum_by length parts.now) nb }
{
    let mut spare = nb as usize;
    for part in parts {
        match spare.checked_sub(part.len()) {
            Some(left) => spare = left,
            None => return false,
        }
    }
    true
}

fn handed_suits(handed: &[Bytes], nb: u32) -> bool
    ensures { result ≡ (nat_le (length handed.now) 16 && nat_le (sum_by length handed.now) nb) }
{
    handed.len() <= MOST_PARTS && parts_fit(handed, nb)
}

// User and LTERM are declared, it is of its owner, and first and next TAC have its kind.
fn names_suit(generation: &Generation, service: &Service) -> bool
    ensures { result ≡ names_suit generation.now service.now }
{
    let asynchronous = is_asynchronous(&service.id);
    is_user(generation, service.user)
        && lterm_suits(generation, &service.lterm)
        && owner_suits(service)
        && has_kind(generation, service.first, asynchronous)
        && has_kind(generation, service.next, asynchronous)
}

/// Every condition on a service's row but RESTART=YES: KB has MAX KB bytes, there are at most LSSBS LSSBs in order, and at
/// most 16 handed parts, which have at most NB bytes together.
pub fn service_suits(generation: &Generation, service: &Service) -> bool
    ensures { result ≡ service_suits generation.now service.now }
{
    let limits = generation.max();
    names_suit(generation, service)
        && service.kb.len() as u64 == u64::from(limits.kb)
        && lssbs_suit(service.lssbs.as_slice(), limits.lssbs)
        && awaits_rightly(service)
        && last_fits(generation, &service.last)
        && handed_suits(service.handed.as_slice(), limits.nb)
}

/// Each service's row suits, whether it outlives a stop or not.
pub(crate) fn services_suit(generation: &Generation, services: &[Service]) -> bool
    ensures { result ≡ list_all (service_suits generation.now) services.now }
{
    services
        .iter()
        .all(|service| service_suits(generation, service))
}

/// Each dialogue service is of a user with RESTART=YES.
pub(crate) fn services_are_durable(generation: &Generation, services: &[Service]) -> bool
    ensures { result ≡ list_all (λ (s : Row). is_durable generation.now s.id) services.now }
{
    services
        .iter()
        .all(|service| is_durable(generation, service.id))
}
