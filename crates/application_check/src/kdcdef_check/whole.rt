//! What the statements say together, and the faults that show against it.
ghost use Rattle.std.specs.Prelude.{◌≡◌, ◌+◌, ◌≤◌, ◌&&◌, ◌==◌, List, length, nat_lt, is_some, unwrap_or, true};
ghost use Rattle.application_types.specs.{Soundness.{restart_count}, declared.kdcdef_types.statement.Statement.{Statement}};
ghost use Rattle.application_check.specs.{Generating.{as_user, said_as, generated}, Faults.{is_end}, Steps.{HaveNamed, IsTallyOf, SaysTogether, is_restart, outer_fault}};

use crate::kdcdef_check::fault::CheckFault;
use crate::kdcdef_check::limits::{double_said, max_given};
use crate::kdcdef_check::tables::Tables;
use crate::kdcdef_check::tally::Tally;
use application_types::kdcdef_types::{MaxOperands, Said, Statement};

/// What the limits of the statements are tested against.
#[derive(Clone, Copy)]
pub(crate) struct Whole {
    pub(crate) max: MaxOperands,
    pub(crate) users: usize,
    /// Users with RESTART=YES.
    pub(crate) restarts: usize,
    pub(crate) lterms: usize,
    /// The line of the statement that says DOUBLE.
    pub(crate) double: Option<u32>,
}

fn is_restart(said: &Said) -> bool
    ensures { result ≡ is_restart said.now }
{
    match said {
        Said::User(_, entry) => entry.restart,
        _ => false,
    }
}

/// How many USER statements have RESTART=YES.
fn restart_count(statements: &[Statement]) -> usize
    ensures count { result ≡ restart_count (said_as as_user statements.now) }
    ensures within { result ≤ length statements.now }
{
    let mut count = 0;
    for statement in statements {
        if is_restart(&statement.said) {
            count += 1;
        }
    }
    count
}

fn is_end(said: &Said) -> bool
    ensures { result ≡ is_end said.now }
{
    matches!(said, Said::End)
}

impl Whole {
    pub(crate) fn of(statements: &[Statement], tally: &Tally) -> Whole
        requires { IsTallyOf tally.now statements.now }
        ensures { SaysTogether result statements.now }
    {
        Whole {
            max: max_given(statements),
            users: tally.users(),
            restarts: restart_count(statements),
            lterms: tally.lterms(),
            double: double_said(statements),
        }
    }

    // Whether the pool has no page for each user with RESTART=YES and each LTERM.
    fn has_small_pool(&self) -> bool
        ensures { result ≡ nat_lt (unwrap_or self.now.max.pgpool 100) (self.now.restarts + self.now.lterms) }
    {
        let needed = self.restarts.saturating_add(self.lterms);
        (self.max.pgpool.unwrap_or(100) as usize) < needed
    }

    // Whether there are two copies of the KDCFILE, and PGPOOL leaves no room for one page more.
    fn has_full_pool(&self) -> bool
        ensures { result ≡ (is_some self.now.double && (unwrap_or self.now.max.pgpool 100 == 30000)) }
    {
        self.double.is_some() && self.max.pgpool.unwrap_or(100) == 30_000
    }

    /// The first of a statement's faults against all statements.
    pub(crate) fn fault_of(&self, tables: &Tables, statement: &Statement) -> Option<CheckFault>
        ensures { (all : List Statement) → HaveNamed tables.now (generated all) → (is_end statement.now.said ≡ true → SaysTogether self.now all) → result ≡ outer_fault all statement.now }
    {
        let said = &statement.said;
        if tables.lacks_program(said) {
            Some(CheckFault::NoProgram(statement.line))
        } else if tables.lacks_lterm(said) {
            Some(CheckFault::NoLterm(statement.line))
        } else if is_end(said) && self.max.appliname.is_none() {
            Some(CheckFault::NoMax(statement.line))
        } else if is_end(said) && self.has_small_pool() {
            Some(CheckFault::PoolTooSmall(statement.line))
        } else if is_end(said) && self.users == 0 {
            Some(CheckFault::NoUser(statement.line))
        } else if tables.lacks_kset(said) {
            Some(CheckFault::NoKset(statement.line))
        } else if is_end(said) && self.has_full_pool() {
            Some(CheckFault::PoolForDouble(statement.line))
        } else {
            None
        }
    }
}
