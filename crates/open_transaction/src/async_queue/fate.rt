//! What becomes of a job whose service ends abnormally before its first synchronisation point.
ghost use Rattle.std.specs.Prelude.{◌≡◌, Some, IfOk, option_map};
ghost use Rattle.abstract_monitor.specs.{Endings.{job_change}, Redelivery.{dead_letter_queue, fate_by, is_tried_again}};
ghost use Rattle.open_transaction.specs.Deliveries.{own_job, with_target};

use kd_base::{Name, OutOfMemory};
use kdcs_types::{Change, JobValue, Key, Row, Service, ServiceId, Target};

/// The LTERM of the dead letter queue.
const DEAD_LETTER_QUEUE: &[u8] = b"KDCDLETQ";

/// MAX REDELIVERY=255 sets no limit.
const NO_LIMIT: u8 = 255;

/// How a job is delivered once more. Number, due, user, LTERM and message stay.
#[derive(Clone, Copy)]
pub(crate) struct Delivery {
    to: Target,
    /// How often it was delivered again then.
    redelivered: u8,
}

/// The name of the dead letter queue.
pub fn dead_letter_queue() -> Name
    ensures { result ≡ dead_letter_queue }
{
    match Name::from_bytes(DEAD_LETTER_QUEUE) {
        Some(name) => name,
        None => unreachable!(),
    }
}

/// The number of the job that a transaction of this service has: that of an asynchronous service without a row.
pub fn own_job(id: ServiceId, began: &Option<Service>) -> Option<u64>
    ensures { result ≡ own_job id began.now }
{
    match (id, began) {
        (ServiceId::Asynchronous(number), None) => Some(number),
        _ => None,
    }
}

// A job is delivered again as often as REDELIVERY says; after that it is a dead letter, where there is a dead letter
// queue, and else it goes.
fn fate_of(value: &JobValue, limit: u8, has_queue: bool) -> Option<Delivery>
    ensures { option_map (with_target value.now) result ≡ fate_by (is_tried_again limit value.now.redelivered) has_queue value.now }
{
    if limit == NO_LIMIT || value.redelivered < limit {
        return Some(Delivery {
            to: value.to,
            redelivered: value.redelivered.saturating_add(1),
        });
    }
    if has_queue {
        return Some(Delivery {
            to: Target::Lterm(dead_letter_queue()),
            redelivered: 0,
        });
    }
    None
}

// The job of this number and value, delivered once more.
fn delivered(number: u64, value: &JobValue, delivery: Delivery) -> Result<Change, OutOfMemory>
    ensures { IfOk result (λ change. change ≡ job_change number (Some (with_target value.now delivery))) }
{
    Ok(Change::Set(Row::Job(
        number,
        JobValue {
            to: delivery.to,
            due: value.due,
            redelivered: delivery.redelivered,
            user: value.user,
            lterm: value.lterm,
            message: value.message.clone()?,
        },
    )))
}

/// The change that an abnormal end makes of the job of this number and value. It is delivered again as often as
/// REDELIVERY says; after that it is a dead letter, where there is a dead letter queue, and else it goes.
pub fn fate_change(
    number: u64,
    value: &JobValue,
    limit: u8,
    has_queue: bool,
) -> Result<Change, OutOfMemory>
    ensures { IfOk result (λ change. change ≡ job_change number (fate_by (is_tried_again limit value.now.redelivered) has_queue value.now)) }
{
    match fate_of(value, limit, has_queue) {
        Some(delivery) => delivered(number, value, delivery),
        None => Ok(Change::Remove(Key::Job(number))),
    }
}
