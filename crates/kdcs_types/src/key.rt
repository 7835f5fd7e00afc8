//! Areas, services and the keys of rows.
ghost use Rattle.std.specs.{Prelude.{◌≡◌, Some, refl}, Cmp.{partial_equiv_from_equiv, eq_by_cmp_equiv, po}};
ghost use Rattle.kdcs_types.specs.{Keys.{key_cmp, key_eq, key_kind, area_cmp, area_eq, area_key, id_cmp, id_eq}, KeyLaws.{key_total, area_total, id_total}};

use kd_base::Name;
use std::cmp::Ordering;

/// A block of storage that services share, and lock. Areas are ordered as the keys of their rows.
#[derive(Clone, Copy)]
pub enum Area {
    /// A global secondary storage area of the application, by its name.
    Gssb(Name),
    /// Terminal-specific long-term storage: a block and its LTERM.
    Tls(Name, Name),
    /// User-specific long-term storage: a block and its user.
    Uls(Name, Name),
}

/// Which service it is. Asynchronous services, by number, are before dialogue services, by user.
#[derive(Clone, Copy)]
pub enum ServiceId {
    /// The dialogue service of this user.
    Dialogue(Name),
    /// The asynchronous service that the job with this number started.
    Asynchronous(u64),
}

/// Where a job's message goes.
#[derive(Clone, Copy, PartialEq, Eq)]
pub enum Target {
    /// An asynchronous TAC, whose service reads it.
    Tac(Name),
    /// A terminal or printer, which shows it.
    Lterm(Name),
}

/// The key of a row. Keys are ordered as the keys of records in a KDCFILE are: by kind in the order of the variants,
/// then by the bytes of names and numbers, an asynchronous service before a dialogue one.
#[derive(Clone, Copy)]
pub enum Key {
    Gssb(Name),
    /// A block and its LTERM.
    Tls(Name, Name),
    /// A block and its user.
    Uls(Name, Name),
    Service(ServiceId),
    /// The job's number.
    Job(u64),
    /// The LTERM that shows the message.
    Shown(Name),
}

impl Area {
    /// The key of the area's row.
    pub fn key(&self) -> Key
        ensures { result ≡ area_key self.now }
    {
        match self {
            Area::Gssb(name) => Key::Gssb(*name),
            Area::Tls(block, lterm) => Key::Tls(*block, *lterm),
            Area::Uls(block, user) => Key::Uls(*block, *user),
        }
    }
}

impl Key {
    /// The kind of the row's record: from 1 to 6.
    pub fn kind(&self) -> u8
        ensures { result ≡ key_kind self.now }
    {
        match self {
            Key::Gssb(_) => 1,
            Key::Tls(_, _) => 2,
            Key::Uls(_, _) => 3,
            Key::Service(_) => 4,
            Key::Job(_) => 5,
            Key::Shown(_) => 6,
        }
    }
}

impl PartialEq for ServiceId {
    ghost eq = { id_eq };

    ghost laws = { partial_equiv_from_equiv (eq_by_cmp_equiv id_total) };

    fn eq(&self, other: &ServiceId) -> bool {
        self.cmp(other).is_eq()
    }
}

impl Eq for ServiceId {
    ghost laws = { eq_by_cmp_equiv id_total };
}

impl PartialOrd for ServiceId {
    ghost partial_cmp = { λ a b. Some (id_cmp a b) };

    ghost laws = { po id_total (λ a b. refl) };

    fn partial_cmp(&self, other: &ServiceId) -> Option<Ordering> {
        Some(self.cmp(other))
    }
}

impl Ord for ServiceId {
    ghost cmp = { id_cmp };

    ghost total = { id_total };

    ghost matches_partial_cmp = { λ a b. refl };

    ghost matches_eq = { λ a b. refl };

    #[tactic(auto, using(crate::specs::KeyLaws::then_equal))]
    fn cmp(&self, other: &ServiceId) -> Ordering {
        match (self, other) {
            (ServiceId::Asynchronous(a), ServiceId::Asynchronous(b)) => a.cmp(b),
            (ServiceId::Asynchronous(_), ServiceId::Dialogue(_)) => Ordering::Less,
            (ServiceId::Dialogue(_), ServiceId::Asynchronous(_)) => Ordering::Greater,
            (ServiceId::Dialogue(a), ServiceId::Dialogue(b)) => a.cmp(b),
        }
    }
}

impl PartialEq for Key {
    ghost eq = { key_eq };

    ghost laws = { partial_equiv_from_equiv (eq_by_cmp_equiv key_total) };

    fn eq(&self, other: &Key) -> bool {
        self.cmp(other).is_eq()
    }
}

impl Eq for Key {
    ghost laws = { eq_by_cmp_equiv key_total };
}

impl PartialOrd for Key {
    ghost partial_cmp = { λ a b. Some (key_cmp a b) };

    ghost laws = { po key_total (λ a b. refl) };

    fn partial_cmp(&self, other: &Key) -> Option<Ordering> {
        Some(self.cmp(other))
    }
}

impl Ord for Key {
    ghost cmp = { key_cmp };

    ghost total = { key_total };

    ghost matches_partial_cmp = { λ a b. refl };

    ghost matches_eq = { λ a b. refl };

    #[tactic(auto, using(crate::specs::KeyLaws::then_equal))]
    fn cmp(&self, other: &Key) -> Ordering {
        match (self, other) {
            (Key::Gssb(a), Key::Gssb(b)) => a.cmp(b),
            (Key::Tls(a, k), Key::Tls(b, l)) => a.cmp(b).then(k.cmp(l)),
            (Key::Uls(a, k), Key::Uls(b, l)) => a.cmp(b).then(k.cmp(l)),
            (Key::Service(a), Key::Service(b)) => a.cmp(b),
            (Key::Job(a), Key::Job(b)) => a.cmp(b),
            (Key::Shown(a), Key::Shown(b)) => a.cmp(b),
            _ => self.kind().cmp(&other.kind()),
        }
    }
}

impl PartialEq for Area {
    ghost eq = { area_eq };

    ghost laws = { partial_equiv_from_equiv (eq_by_cmp_equiv area_total) };

    fn eq(&self, other: &Area) -> bool {
        self.cmp(other).is_eq()
    }
}

impl Eq for Area {
    ghost laws = { eq_by_cmp_equiv area_total };
}

impl PartialOrd for Area {
    ghost partial_cmp = { λ a b. Some (area_cmp a b) };

    ghost laws = { po area_total (λ a b. refl) };

    fn partial_cmp(&self, other: &Area) -> Option<Ordering> {
        Some(self.cmp(other))
    }
}

impl Ord for Area {
    ghost cmp = { area_cmp };

    ghost total = { area_total };

    ghost matches_partial_cmp = { λ a b. refl };

    ghost matches_eq = { λ a b. refl };

    fn cmp(&self, other: &Area) -> Ordering {
        self.key().cmp(&other.key())
    }
}
