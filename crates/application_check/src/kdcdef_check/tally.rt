//! How many statements there are.
ghost use Rattle.std.specs.Prelude.{◌≡◌, ◌+◌, ◌^◌, ◌<◌, [], slice_index, slice_set};
ghost use Rattle.application_check.specs.{Faults.{kind_of}, Steps.{AreFew, counts_in, IsTallyOf}};

use application_types::kdcdef_types::{Counts, Said};

const PROGRAMS: usize = 1;

const TACS: usize = 2;

const USERS: usize = 3;

const PTERMS: usize = 4;

const LTERMS: usize = 5;

const PASSED: usize = 10;

// The place of a statement's kind among the kinds; all that are passed over are one kind.
fn kind_of(said: &Said) -> usize
    ensures kind { result ≡ kind_of said.now }
    ensures within { result < 12 }
{
    match said {
        Said::Max(_) => 0,
        Said::Program(_) => PROGRAMS,
        Said::Tac(_, _) => TACS,
        Said::User(_, _) => USERS,
        Said::Pterm(_, _) => PTERMS,
        Said::Lterm(_, _) => LTERMS,
        Said::Tls(_) => 6,
        Said::Uls(_) => 7,
        Said::TacClass(_, _) => 8,
        Said::Kset(_, _) => 9,
        Said::Passed => PASSED,
        Said::End => 11,
    }
}

/// How many statements there are of each kind.
#[derive(Clone, Copy)]
pub(crate) struct Tally {
    counts: [usize; 12],
}

impl Tally {
    pub(crate) fn new() -> Tally
        ensures { IsTallyOf result [] }
    {
        Tally { counts: [0; 12] }
    }

    /// How many statements of the same kind were counted.
    pub(crate) fn count(&self, said: &Said) -> usize
        ensures { result ≡ slice_index self.now.counts (kind_of said.now) }
    {
        self.counts[kind_of(said)]
    }

    pub(crate) fn users(&self) -> usize
        ensures { result ≡ slice_index self.now.counts 3 }
    {
        self.counts[USERS]
    }

    pub(crate) fn lterms(&self) -> usize
        ensures { result ≡ slice_index self.now.counts 5 }
    {
        self.counts[LTERMS]
    }

    /// The counts of a generation.
    pub(crate) fn counts(&self, passed_operands: u32) -> Counts
        requires { AreFew self.now }
        ensures { result ≡ counts_in self.now passed_operands }
    {
        Counts {
            users: self.counts[USERS] as u32,
            pterms: self.counts[PTERMS] as u32,
            lterms: self.counts[LTERMS] as u32,
            tacs: self.counts[TACS] as u32,
            programs: self.counts[PROGRAMS] as u32,
            passed_statements: self.counts[PASSED] as u32,
            passed_operands,
        }
    }

    /// Counts one more statement of this kind.
    pub(crate) fn add(&mut self, said: &Said)
        requires { slice_index self.old.counts (kind_of said.now) + 1 < 2 ^ 64 }
        ensures { self.new.counts ≡ slice_set self.old.counts (kind_of said.now) (slice_index self.old.counts (kind_of said.now) + 1) }
    {
        self.counts[kind_of(said)] += 1;
    }
}
