//! What is seen of a step: requests that are refused, dumps, and transactions that have begun.
ghost use Rattle.std.specs.{Prelude.{◌≡◌, ◌&&◌, ◌||◌, count_by, false}, List.{list_any}};
ghost use Rattle.abstract_monitor.specs.Commands.{maker_of};
ghost use Rattle.lab_walks.specs.{Serial.{has_begun, is_one_at_a_time}, Signs.{dumps, is_dump, is_k04, is_k05, is_refused_in, refuses}};
ghost use Rattle.lab_orders.specs.Walking.{HasNoSigns};

use kdcs_types::{Code, Ending, Note};
use lab_walks::{Signs, stays_serial};
use monitor_core::Core;
use sync_points::KeptRecord;

/// Nothing was seen.
pub(crate) fn no_signs() -> Signs
    ensures { HasNoSigns result }
{
    Signs {
        k04: false,
        k05: false,
        dump: false,
        standstill: false,
        spent: false,
    }
}

fn is_k04(code: Code) -> bool
    ensures { result ≡ is_k04 code }
{
    match code {
        Code::K04 => true,
        Code::Done
        | Code::K01
        | Code::K02
        | Code::K03
        | Code::K05
        | Code::K06
        | Code::K07
        | Code::K08
        | Code::K09
        | Code::K10
        | Code::K11 => false,
    }
}

fn is_k05(code: Code) -> bool
    ensures { result ≡ is_k05 code }
{
    match code {
        Code::K05 => true,
        Code::Done
        | Code::K01
        | Code::K02
        | Code::K03
        | Code::K04
        | Code::K06
        | Code::K07
        | Code::K08
        | Code::K09
        | Code::K10
        | Code::K11 => false,
    }
}

fn tells_k04(note: &Note) -> bool
    ensures { result ≡ refuses is_k04 note.now }
{
    match note {
        Note::Released(_, _) => false,
        Note::Refused(_, code) => is_k04(*code),
    }
}

fn tells_k05(note: &Note) -> bool
    ensures { result ≡ refuses is_k05 note.now }
{
    match note {
        Note::Released(_, _) => false,
        Note::Refused(_, code) => is_k05(*code),
    }
}

fn has_k04(notes: &[Note]) -> bool
    ensures { result ≡ list_any (refuses is_k04) notes.now }
{
    notes.iter().any(|note| tells_k04(note))
}

fn has_k05(notes: &[Note]) -> bool
    ensures { result ≡ list_any (refuses is_k05) notes.now }
{
    notes.iter().any(|note| tells_k05(note))
}

// Whether a request of an open transaction was refused with K04, and whether one was with K05.
fn refusals_in(core: &Core) -> (bool, bool)
    ensures k04 { result.0 ≡ is_refused_in is_k04 core.now.state }
    ensures k05 { result.1 ≡ is_refused_in is_k05 core.now.state }
{
    let parts = core.parts();
    let mut k04 = false;
    let mut k05 = false;
    for (_, transaction) in parts.active.iter() {
        let notes = transaction.notes.as_slice();
        k04 = k04 || has_k04(notes);
        k05 = k05 || has_k05(notes);
    }
    (k04, k05)
}

fn dumps(ending: Ending) -> bool
    ensures { result ≡ dumps ending }
{
    match ending {
        Ending::Broken(_) => true,
        Ending::Synced | Ending::BrokenFr => false,
    }
}

// Whether the transaction that settled, if one did, ended with a dump.
fn is_dump(settled: &Option<KeptRecord>) -> bool
    ensures { result ≡ is_dump (maker_of settled.now) }
{
    match settled {
        Some(kept) => dumps(kept.ending()),
        None => false,
    }
}

/// What was seen before a step, and of the step that came to this core.
pub(crate) fn seen(before: Signs, settled: &Option<KeptRecord>, core: &Core) -> Signs
    ensures k04 { result.k04 ≡ (before.k04 || is_refused_in is_k04 core.now.state) }
    ensures k05 { result.k05 ≡ (before.k05 || is_refused_in is_k05 core.now.state) }
    ensures dump { result.dump ≡ (before.dump || is_dump (maker_of settled.now)) }
{
    let (k04, k05) = refusals_in(core);
    Signs {
        k04: before.k04 || k04,
        k05: before.k05 || k05,
        dump: before.dump || is_dump(settled),
        ..before
    }
}

// How many open transactions have done a statement.
fn begun_in(core: &Core) -> usize
    ensures { result ≡ count_by has_begun core.now.state.active }
{
    let parts = core.parts();
    let _most = parts.active.len(); // for the proof
    let mut begun = 0;
    for (_, transaction) in parts.active.iter() {
        if transaction.statements > 0 {
            begun += 1;
        }
    }
    begun
}

/// No two transactions had begun and were open at once before a step, nor are in this core, which it came to.
pub(crate) fn is_serial(before: bool, core: &Core) -> bool
    ensures { result ≡ (before && is_one_at_a_time core.now.state) }
{
    stays_serial(before, begun_in(core))
}
