//! Of which area a call asks.
ghost use Rattle.std.specs.Prelude.{◌≡◌};
ghost use Rattle.abstract_monitor.specs.{Calls.{name_in_operand}, Statements.{area_of_call}};
ghost use Rattle.kdcs_calls.specs.Calling.{is_declared};
ghost use Rattle.open_transaction.specs.Transactions.{transaction_of};
ghost use Rattle.serial_audit.specs.Asking.{asks_lock, locks};

use application_types::generation::Generation;
use kd_base::{Bytes, Name, trim_end};
use kdcs_types::{Area, Call};
use open_transaction::OpenTransaction;

fn name_in(operand: &Bytes) -> Option<Name>
    ensures { result ≡ name_in_operand operand.now }
{
    Name::from_bytes(trim_end(operand.as_slice()))
}

/// The area of which a call asks, if it asks of one.
pub(crate) fn area_of_call(transaction: &OpenTransaction, call: &Call) -> Option<Area>
    ensures { result ≡ area_of_call (transaction_of transaction.now) call.now }
{
    match call {
        Call::SgetGb(name, _) | Call::SputGb(name, _) | Call::SrelGb(name) | Call::UnlkGb(name) =>
            Some(Area::Gssb(name_in(name)?)),
        Call::SgetUs(name, _) | Call::SputUs(name, _) | Call::UnlkUs(name) => {
            Some(Area::Uls(name_in(name)?, transaction.user))
        }
        Call::Gtda(name, _) | Call::Ptda(name, _) | Call::UnlkDa(name) => {
            Some(Area::Tls(name_in(name)?, transaction.lterm))
        }
        _ => None,
    }
}

fn is_declared(generation: &Generation, area: &Area) -> bool
    ensures { result ≡ is_declared generation.now area.now }
{
    match area {
        Area::Gssb(_) => true,
        Area::Tls(block, _) => generation.has_tls(*block),
        Area::Uls(block, _) => generation.has_uls(*block),
    }
}

fn locks(call: &Call) -> bool
    ensures { result ≡ locks call.now }
{
    match call {
        Call::SgetGb(..) | Call::SputGb(..) | Call::SrelGb(_) => true,
        Call::SgetUs(..) | Call::SputUs(..) => true,
        Call::Gtda(..) | Call::Ptda(..) => true,
        _ => false,
    }
}

/// Whether a call comes to ask for the lock of its area: once INIT is done, and where the area is declared.
pub(crate) fn asks_lock(
    generation: &Generation,
    transaction: &OpenTransaction,
    call: &Call,
    area: &Area,
) -> bool
    ensures { result ≡ asks_lock generation.now (transaction_of transaction.now) call.now area.now }
{
    transaction.inited && locks(call) && is_declared(generation, area)
}
