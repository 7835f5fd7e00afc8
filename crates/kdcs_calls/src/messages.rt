//! MGET, MPUT and FGET.
ghost use Rattle.std.specs.Prelude.{◌≡◌, All, IfOk};
ghost use Rattle.abstract_monitor.specs.Calls.{for_kind, got};
ghost use Rattle.open_transaction.specs.Transactions.{transaction_of};
ghost use Rattle.kdcs_calls.specs.{Calling.{IsShort}, Parts.{PutsPart}};

use crate::answer::{read_reply, replied};
use abstract_monitor::Called;
use kd_base::{Bytes, OutOfMemory};
use kdcs_types::{Cause, Code};
use open_transaction::OpenTransaction;
use service_parts::message_area::PutError;

/// The next part of the message, where the call is for this kind of service.
pub(crate) fn get(transaction: &mut OpenTransaction, allowed: bool, capacity: u32) -> Called
    requires { All IsShort transaction.old.messages.unread }
    ensures exact { (transaction_of transaction.new, result) ≡ for_kind (transaction_of transaction.old) allowed (got (transaction_of transaction.old) capacity) }
    ensures id { transaction.new.id ≡ transaction.old.id }
    ensures statements { transaction.new.statements ≡ transaction.old.statements }
    ensures nb { transaction.new.messages.nb ≡ transaction.old.messages.nb }
{
    if !allowed {
        return Called::Abnormal(Cause::E02);
    }
    match transaction.messages.get() {
        Some(part) => read_reply(capacity, part),
        None => replied(Code::K01),
    }
}

/// One more part of the message, where the call is for this kind of service.
pub(crate) fn put(
    transaction: &mut OpenTransaction,
    allowed: bool,
    part: &Bytes,
) -> Result<Called, OutOfMemory>
    ensures exact { IfOk result (λ called. PutsPart transaction.old allowed part.now (transaction_of transaction.new, called)) }
    ensures id { transaction.new.id ≡ transaction.old.id }
    ensures statements { transaction.new.statements ≡ transaction.old.statements }
    ensures nb { transaction.new.messages.nb ≡ transaction.old.messages.nb }
{
    if !allowed {
        return Ok(Called::Abnormal(Cause::E02));
    }
    match transaction.messages.put(part.clone()?) {
        Ok(()) => Ok(replied(Code::Done)),
        Err(PutError::TooLong) => Ok(Called::Abnormal(Cause::E12)),
        Err(PutError::Memory) => Err(OutOfMemory),
    }
}
