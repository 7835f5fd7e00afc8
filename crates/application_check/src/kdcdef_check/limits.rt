//! The limits, which the MAX statements give together.
ghost use Rattle.std.specs.Prelude.{◌≡◌, IsSome};
ghost use Rattle.application_check.specs.Generating.{operands_said, both_given, max_given, says_double, double_said, with_defaults};

use application_types::kdcdef_types::{Limits, MaxOperands, Said, Statement};

const NOTHING_GIVEN: MaxOperands = MaxOperands {
    appliname: None,
    tasks: None,
    asyntasks: None,
    gssbs: None,
    lssbs: None,
    kb: None,
    spab: None,
    nb: None,
    pgpool: None,
    reswait: None,
    blksize: None,
    redelivery: None,
    double: None,
};

// The operands that a statement gives.
fn operands_said(said: &Said) -> MaxOperands
    ensures { result ≡ operands_said said.now }
{
    match said {
        Said::Max(max) => *max,
        _ => NOTHING_GIVEN,
    }
}

// What the first gives, and else the second.
fn both_given(first: &MaxOperands, second: &MaxOperands) -> MaxOperands
    ensures { result ≡ both_given first.now second.now }
{
    MaxOperands {
        appliname: first.appliname.or(second.appliname),
        tasks: first.tasks.or(second.tasks),
        asyntasks: first.asyntasks.or(second.asyntasks),
        gssbs: first.gssbs.or(second.gssbs),
        lssbs: first.lssbs.or(second.lssbs),
        kb: first.kb.or(second.kb),
        spab: first.spab.or(second.spab),
        nb: first.nb.or(second.nb),
        pgpool: first.pgpool.or(second.pgpool),
        reswait: first.reswait.or(second.reswait),
        blksize: first.blksize.or(second.blksize),
        redelivery: first.redelivery.or(second.redelivery),
        double: first.double.or(second.double),
    }
}

/// The operands of all MAX statements together.
pub(crate) fn max_given(statements: &[Statement]) -> MaxOperands
    ensures { result ≡ max_given statements.now }
{
    let mut given = NOTHING_GIVEN;
    for statement in statements {
        given = both_given(&given, &operands_said(&statement.said));
    }
    given
}

fn says_double(said: &Said) -> bool
    ensures { result ≡ says_double said.now }
{
    operands_said(said).double.unwrap_or(false)
}

/// The line of the statement that says DOUBLE, if one does.
pub(crate) fn double_said(statements: &[Statement]) -> Option<u32>
    ensures { result ≡ double_said statements.now }
{
    for statement in statements {
        if says_double(&statement.said) {
            return Some(statement.line);
        }
    }
    None
}

/// The limits, their defaults filled in.
pub(crate) fn limits_of(max: &MaxOperands) -> Limits
    requires { IsSome max.now.appliname }
    ensures { result ≡ with_defaults max.now }
{
    Limits {
        appliname: max.appliname.unwrap(),
        tasks: max.tasks.unwrap_or(1),
        asyntasks: max.asyntasks.unwrap_or(1),
        gssbs: max.gssbs.unwrap_or(32),
        lssbs: max.lssbs.unwrap_or(8),
        kb: max.kb.unwrap_or(512),
        spab: max.spab.unwrap_or(512),
        nb: max.nb.unwrap_or(2048),
        pgpool: max.pgpool.unwrap_or(100),
        reswait: max.reswait.unwrap_or(60),
        blksize: max.blksize.unwrap_or(4096),
        redelivery: max.redelivery.unwrap_or(0),
    }
}
