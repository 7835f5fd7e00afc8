//! Whether two things are the same.
ghost use Rattle.std.specs.Prelude.{◌≡◌, true};

use kd_base::{Bytes, Name};
use kdcs_types::{Area, Code, Job, JobValue, Note, Service, ServiceId, Tables};
use sync_points::{same_service, same_value};

/// What can be compared. Where two are found the same, they are.
pub(crate) trait Same {
    fn is_same(&self, other: &Self) -> bool
        ensures { result ≡ true → self.now ≡ other.now };
}

/// Whether both lists have the same items in the same order.
pub(crate) fn all_same<T: Same>(a: &[T], b: &[T]) -> bool
    ensures { result ≡ true → a.now ≡ b.now }
{
    if a.len() != b.len() {
        return false;
    }
    for at in 0..a.len() {
        if !a[at].is_same(&b[at]) {
            return false;
        }
    }
    true
}

impl Same for u64 {
    fn is_same(&self, other: &u64) -> bool {
        *self == *other
    }
}

impl Same for Name {
    fn is_same(&self, other: &Name) -> bool {
        self == other
    }
}

impl Same for Bytes {
    fn is_same(&self, other: &Bytes) -> bool {
        self == other
    }
}

impl Same for ServiceId {
    fn is_same(&self, other: &ServiceId) -> bool {
        self == other
    }
}

impl Same for Area {
    fn is_same(&self, other: &Area) -> bool {
        self == other
    }
}

impl Same for Code {
    fn is_same(&self, other: &Code) -> bool {
        self == other
    }
}

impl<T: Same> Same for Option<T> {
    fn is_same(&self, other: &Option<T>) -> bool {
        match (self, other) {
            (Some(a), Some(b)) => a.is_same(b),
            (None, None) => true,
            (Some(_), None) | (None, Some(_)) => false,
        }
    }
}

impl<A: Same, B: Same> Same for (A, B) {
    fn is_same(&self, other: &(A, B)) -> bool {
        self.0.is_same(&other.0) && self.1.is_same(&other.1)
    }
}

impl<A: Same, B: Same, C: Same> Same for (A, B, C) {
    fn is_same(&self, other: &(A, B, C)) -> bool {
        self.0.is_same(&other.0) && self.1.is_same(&other.1) && self.2.is_same(&other.2)
    }
}

impl Same for Service {
    fn is_same(&self, other: &Service) -> bool {
        same_service(self, other)
    }
}

impl Same for JobValue {
    fn is_same(&self, other: &JobValue) -> bool {
        same_value(self, other)
    }
}

impl Same for Job {
    fn is_same(&self, other: &Job) -> bool {
        self.number == other.number && self.value.is_same(&other.value)
    }
}

impl Same for Note {
    fn is_same(&self, other: &Note) -> bool {
        match (self, other) {
            (Note::Released(a, content), Note::Released(b, another)) => {
                a.is_same(b) && content.is_same(another)
            }
            (Note::Refused(a, code), Note::Refused(b, another)) => {
                a.is_same(b) && code.is_same(another)
            }
            (Note::Released(_, _), Note::Refused(_, _))
            | (Note::Refused(_, _), Note::Released(_, _)) => false,
        }
    }
}

/// Whether both tables have the same rows and numbers. The numbers and the areas are compared first.
pub(crate) fn same_tables(a: &Tables, b: &Tables) -> bool
    ensures { result ≡ true → a.now ≡ b.now }
{
    a.clock() == b.clock()
        && a.next_job() == b.next_job()
        && all_same(a.gssbs(), b.gssbs())
        && all_same(a.tlss(), b.tlss())
        && all_same(a.ulss(), b.ulss())
        && all_same(a.jobs(), b.jobs())
        && all_same(a.shown(), b.shown())
        && all_same(a.services(), b.services())
}
