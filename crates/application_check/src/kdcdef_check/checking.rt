//! The check of the statements together.
ghost use Rattle.std.specs.Prelude.{◌≡◌, ◌≢◌, ◌≤◌, List, IfOk, IfErr, Ok, Err};
ghost use Rattle.application_types.specs.{Soundness.{IsSound}, Statements.{AreRead, passed_count}, declared.kdcdef_types.statement.Statement.{Statement}};
ghost use Rattle.application_check.specs.{declared.kdcdef_check.fault.CheckFault.{CheckFault}, declared.kdcdef_check.fault.CheckFault.TheVariants.{Memory}, Generating.{generated}};
ghost use Rattle.application_check.specs.{Faults.{AreFaultless, IsFirstFault, Gives}, Gathering.{WereGathered, OfGathered}, Steps.{made_of}};

use crate::kdcdef_check::fault::{CheckFault, earlier};
use crate::kdcdef_check::gathered::Gathered;
use crate::kdcdef_check::limits::limits_of;
use crate::kdcdef_check::passes::first_outer_fault;
use crate::kdcdef_check::tables::Tables;
use crate::kdcdef_check::whole::Whole;
use application_types::generation::Generation;
use application_types::kdcdef_types::{Counts, Limits, Statement};
use kd_base::OutOfMemory;
use std::alloc::Global;

fn passed_operands(statements: &[Statement]) -> u32
    requires { passed_count statements.now ≤ 16777216 }
    ensures { result ≡ passed_count statements.now }
{
    let mut count = 0;
    for statement in statements {
        count += statement.passed;
    }
    count
}

// The generation of filled tables, limits, counts and the line of DOUBLE.
fn generation_of(
    alloc: Global,
    tables: Tables,
    limits: Limits,
    counts: Counts,
    double: Option<u32>,
) -> Result<Generation, OutOfMemory>
    requires { IsSound (made_of tables limits counts double) }
    ensures { IfOk result (λ generation. generation ≡ made_of tables limits counts double) }
{
    Generation::of(alloc, tables.into_parts(limits, counts, double))
}

/// The generation of the statements that were gathered, or their first fault.
pub fn check(alloc: Global, gathered: Gathered) -> Result<Generation, CheckFault>
    requires { (ss : List Statement) × WereGathered gathered ss × AreRead ss }
    // A generation is that of the statements, and there is no fault.
    ensures found { OfGathered gathered (λ ss. AreRead ss → IfOk result (λ g. (g ≡ generated ss) × AreFaultless ss)) }
    // The fault that is answered is there, and comes first.
    ensures fault { OfGathered gathered (λ ss. AreRead ss → IfErr result (λ e. e ≢ Memory → IsFirstFault ss e)) }
    // Statements with no fault make their generation, unless memory runs out.
    ensures only { OfGathered gathered (λ ss. AreRead ss → AreFaultless ss → Gives result (Ok (generated ss))) }
    // The first fault is answered, unless memory runs out.
    ensures refused { OfGathered gathered (λ ss. AreRead ss → (e : CheckFault) → IsFirstFault ss e → Gives result (Err e)) }
{
    let statements = gathered.kept.as_slice();
    let whole = Whole::of(statements, &gathered.tally);
    let outer = first_outer_fault(&gathered.tables, &whole, statements);
    if let Some(fault) = earlier(gathered.first, outer) {
        return Err(fault);
    }
    let counts = gathered.tally.counts(passed_operands(statements));
    let generation = generation_of(
        alloc,
        Box::into_inner(gathered.tables),
        limits_of(&whole.max),
        counts,
        whole.double,
    )?;
    Ok(generation)
}
