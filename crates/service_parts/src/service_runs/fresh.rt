//! How a unit run begins.
ghost use Rattle.std.specs.Prelude.{◌≡◌, IfOk};
ghost use Rattle.application_types.specs.Generation.{tac_of};
ghost use Rattle.kdcs_types.specs.declared.call.Code.TheVariants as code;
ghost use Rattle.abstract_monitor.specs.Endings.{spaces, budget_by, fresh_run, kb_of};

use application_types::generation::Generation;
use kd_base::{Bytes, Name, OutOfMemory};
use kdcs_types::{Code, Header, RunState, Service};
use std::alloc::Global;

/// So many spaces.
pub fn spaces(alloc: Global, count: u32) -> Result<Bytes, OutOfMemory>
    ensures { IfOk result (λ bytes. bytes ≡ spaces count) }
{
    Ok(Bytes::from_vec(vec![in alloc; b' '; count as usize]?))
}

/// TIME of a TAC.
pub fn budget(generation: &Generation, tac: Name) -> u32
    ensures { result ≡ budget_by (tac_of generation.now tac) }
{
    match generation.tac(tac) {
        Some(entry) => entry.time,
        None => 0,
    }
}

/// The KB of the row, or a new one.
pub fn kb_of(
    alloc: Global,
    generation: &Generation,
    began: &Option<Service>,
) -> Result<Bytes, OutOfMemory>
    ensures { IfOk result (λ kb. kb ≡ kb_of generation.now began.now) }
{
    match began {
        Some(row) => Ok(row.kb.clone()?),
        None => spaces(alloc, generation.max().kb),
    }
}

/// A unit run before its first statement.
pub fn fresh_run(
    alloc: Global,
    generation: &Generation,
    kb: Bytes,
    header: Header,
) -> Result<RunState, OutOfMemory>
    ensures { IfOk result (λ run. run ≡ fresh_run generation.now kb header) }
{
    Ok(RunState {
        place: 1,
        count: 0,
        budget: budget(generation, header.tacal),
        kb,
        spab: spaces(alloc, generation.max().spab)?,
        code: Code::Done,
        length: 0,
        header,
    })
}

/// The same run begins anew, for this TAC. It keeps the KB.
pub fn restart(run: &mut RunState, budget: u32, tac: Name, spab: Bytes)
    ensures { run.new ≡ record { place = 1; count = 0; budget = budget; kb = run.old.kb; spab = spab; code = code.Done; length = 0; header = record run.old.header { tacal = tac } } }
{
    run.place = 1;
    run.count = 0;
    run.budget = budget;
    run.spab = spab;
    run.code = Code::Done;
    run.length = 0;
    run.header.tacal = tac;
}
