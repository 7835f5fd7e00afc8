//! The order in which jobs are due: by target, then by due, then by number.
ghost use Rattle.std.specs.{Prelude.{◌≡◌, Some, refl}, Cmp.{partial_equiv_from_equiv, eq_by_cmp_equiv, po}};
ghost use Rattle.open_transaction.specs.{DueOrder.{target_cmp, due_cmp, due_eq, first_key, last_key}, DueOrderLaws.{due_total}};

use kdcs_types::Target;
use std::cmp::Ordering;

/// Where a job stands among all jobs.
#[derive(Clone, Copy)]
pub(crate) struct DueKey {
    pub(crate) to: Target,
    pub(crate) due: u64,
    pub(crate) number: u64,
}

// TACs are before LTERMs, each in the order of their names.
fn target_cmp(a: &Target, b: &Target) -> Ordering
    ensures { result ≡ target_cmp a.now b.now }
{
    match (a, b) {
        (Target::Tac(a), Target::Tac(b)) => a.cmp(b),
        (Target::Tac(_), Target::Lterm(_)) => Ordering::Less,
        (Target::Lterm(_), Target::Tac(_)) => Ordering::Greater,
        (Target::Lterm(a), Target::Lterm(b)) => a.cmp(b),
    }
}

impl DueKey {
    // No key of this target is less.
    pub(crate) fn first_of(to: Target) -> DueKey
        ensures { result ≡ first_key to }
    {
        DueKey {
            to,
            due: 0,
            number: 0,
        }
    }

    // No key of this target is greater.
    pub(crate) fn last_of(to: Target) -> DueKey
        ensures { result ≡ last_key to }
    {
        DueKey {
            to,
            due: u64::MAX,
            number: u64::MAX,
        }
    }
}

impl PartialEq for DueKey {
    ghost eq = { due_eq };

    ghost laws = { partial_equiv_from_equiv (eq_by_cmp_equiv due_total) };

    fn eq(&self, other: &DueKey) -> bool {
        self.cmp(other).is_eq()
    }
}

impl Eq for DueKey {
    ghost laws = { eq_by_cmp_equiv due_total };
}

impl PartialOrd for DueKey {
    ghost partial_cmp = { λ a b. Some (due_cmp a b) };

    ghost laws = { po due_total (λ a b. refl) };

    fn partial_cmp(&self, other: &DueKey) -> Option<Ordering> {
        Some(self.cmp(other))
    }
}

impl Ord for DueKey {
    ghost cmp = { due_cmp };

    ghost total = { due_total };

    ghost matches_partial_cmp = { λ a b. refl };

    ghost matches_eq = { λ a b. refl };

    fn cmp(&self, other: &DueKey) -> Ordering {
        target_cmp(&self.to, &other.to)
            .then(self.due.cmp(&other.due))
            .then(self.number.cmp(&other.number))
    }
}
