//! How the transaction of a record opens.
ghost use Rattle.std.specs.Prelude.{◌≡◌, ◌∷◌, [], IfOk, Some, if◌then◌else◌};
ghost use Rattle.abstract_monitor.specs.Endings.{header_of_row, opened, opened_by_job, opened_by_row, user_in_row};
ghost use Rattle.open_transaction.specs.Transactions.{HasOrder, boxed_transaction};
ghost use Rattle.laws_of_states.specs.Replay.{lterm_in, opened_from, tac_in};
ghost use Rattle.serial_audit.specs.{Audit.{BeginsRightly}, Opening.{CanOpen, IsOpened, dialogue_opened, first_read, reads_first}, Replaying.{IsAuditable, app_of, kept_in, tables_in}};

use crate::names::Names;
use crate::replay::{Replay, input_at};
use kd_base::{Bytes, Name, OutOfMemory};
use kdcs_calls::service_statement::Outside;
use kdcs_types::{Header, JobValue, Parts, Service, ServiceId};
use open_transaction::OpenTransaction;

// A dialogue service has the user of its id.
fn user_in_row(id: ServiceId, row: &Service) -> Name
    ensures { result ≡ user_in_row id row.now }
{
    match id {
        ServiceId::Dialogue(user) => user,
        ServiceId::Asynchronous(_) => row.user,
    }
}

fn header_of_row(id: ServiceId, row: &Service, lterm: Name) -> Header
    ensures { result ≡ header_of_row id row.now lterm }
{
    Header {
        benid: user_in_row(id, row),
        logter: lterm,
        tacvg: row.first,
        tacal: row.next,
    }
}

// It has this message to read.
fn open_with(
    outside: &Outside,
    id: ServiceId,
    began: Option<Service>,
    header: Header,
    message: Bytes,
    accepted: bool,
) -> Result<Box<OpenTransaction>, OutOfMemory>
    requires { HasOrder began }
    ensures exact { IfOk result (λ b. boxed_transaction b ≡ opened outside.now.generation.now began header (message ∷ []) (if accepted then message ∷ [] else [])) }
    ensures id { IfOk result (λ b. b.value.id ≡ id) }
    ensures nb { IfOk result (λ b. b.value.messages.nb ≡ outside.now.generation.now.limits.nb) }
{
    let mut handed = Parts::new(outside.alloc);
    handed.push(message)?;
    OpenTransaction::begin(
        outside.alloc,
        outside.generation,
        id,
        began,
        header,
        handed,
        accepted,
    )
}

// It goes on from its row, with the parts that were handed on to read.
fn open_from_row(
    outside: &Outside,
    id: ServiceId,
    row: &Service,
    lterm: Name,
) -> Result<Box<OpenTransaction>, OutOfMemory>
    requires { HasOrder (Some row.now) }
    ensures exact { IfOk result (λ b. boxed_transaction b ≡ opened_by_row outside.now.generation.now id row.now lterm) }
    ensures id { IfOk result (λ b. b.value.id ≡ id) }
    ensures nb { IfOk result (λ b. b.value.messages.nb ≡ outside.now.generation.now.limits.nb) }
{
    OpenTransaction::begin(
        outside.alloc,
        outside.generation,
        id,
        Some(row.clone()?),
        header_of_row(id, row, lterm),
        row.handed.clone()?,
        false,
    )
}

// It begins with a job.
fn open_with_job(
    outside: &Outside,
    id: ServiceId,
    job: &JobValue,
    tac: Name,
) -> Result<Box<OpenTransaction>, OutOfMemory>
    ensures exact { IfOk result (λ b. boxed_transaction b ≡ opened_by_job outside.now.generation.now job.now tac) }
    ensures id { IfOk result (λ b. b.value.id ≡ id) }
    ensures nb { IfOk result (λ b. b.value.messages.nb ≡ outside.now.generation.now.limits.nb) }
{
    let header = Header {
        benid: job.user,
        logter: job.lterm,
        tacvg: tac,
        tacal: tac,
    };
    open_with(outside, id, None, header, job.message.clone()?, false)
}

// The first input, or none where there is none.
fn first_input(replay: &Replay) -> Result<Bytes, OutOfMemory>
    requires { BeginsRightly (app_of replay.now).generation (kept_in replay.now) }
    ensures { IfOk result (λ input. input ≡ first_read (kept_in replay.now)) }
{
    match input_at(replay.record, 0) {
        Some(input) => Ok(input.clone()?),
        None => Ok(Bytes::new(replay.outside.alloc)),
    }
}

// It reads the first input.
fn open_with_input(
    replay: &Replay,
    began: Option<Service>,
    header: Header,
) -> Result<Box<OpenTransaction>, OutOfMemory>
    requires begins { BeginsRightly (app_of replay.now).generation (kept_in replay.now) }
    requires order { HasOrder began }
    ensures { IfOk result (IsOpened replay.now (reads_first replay.now began header)) }
{
    let input = first_input(replay)?;
    open_with(
        &replay.outside,
        replay.record.service,
        began,
        header,
        input,
        true,
    )
}

// A dialogue service with a row reads the first input where the row awaits one.
fn open_dialogue(
    replay: &Replay,
    row: &Service,
    lterm: Name,
) -> Result<Box<OpenTransaction>, OutOfMemory>
    requires begins { BeginsRightly (app_of replay.now).generation (kept_in replay.now) }
    requires order { HasOrder (Some row.now) }
    requires lterm { lterm ≡ lterm_in (kept_in replay.now) }
    ensures { IfOk result (IsOpened replay.now (dialogue_opened replay.now row.now row.now.awaits)) }
{
    let id = replay.record.service;
    if row.awaits {
        return open_with_input(replay, Some(row.clone()?), header_of_row(id, row, lterm));
    }
    open_from_row(&replay.outside, id, row, lterm)
}

/// The transaction of a record before its first statement. Where the input that it reads is not there, it reads an
/// empty one, and has accepted more inputs than the record has.
pub(crate) fn open(replay: &Replay, names: Names) -> Result<Box<OpenTransaction>, OutOfMemory>
    requires auditable { IsAuditable replay.now }
    requires can { CanOpen replay.now }
    requires tac { names.tac ≡ tac_in (kept_in replay.now) }
    requires lterm { names.lterm ≡ lterm_in (kept_in replay.now) }
    ensures { IfOk result (IsOpened replay.now (opened_from (app_of replay.now) (tables_in replay.now) (kept_in replay.now) (kept_in replay.now).service (kept_in replay.now).began)) }
{
    let id = replay.record.service;
    match (&replay.record.service, &replay.record.began) {
        (ServiceId::Dialogue(user), None) => {
            let header = Header {
                benid: *user,
                logter: names.lterm,
                tacvg: names.tac,
                tacal: names.tac,
            };
            open_with_input(replay, None, header)
        }
        (ServiceId::Dialogue(_), Some(row)) => open_dialogue(replay, row, names.lterm),
        (ServiceId::Asynchronous(number), None) => match replay.outside.tables.job(*number) {
            Some(job) => open_with_job(&replay.outside, id, job, names.tac),
            None => unreachable!(),
        },
        (ServiceId::Asynchronous(_), Some(row)) => match &row.lterm {
            Some(lterm) => open_from_row(&replay.outside, id, row, *lterm),
            None => unreachable!(),
        },
    }
}
