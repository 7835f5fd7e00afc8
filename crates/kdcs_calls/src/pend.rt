//! PEND.
ghost use Rattle.std.specs.{Prelude.{◌≡◌}, Option.{option_copied}};
ghost use Rattle.abstract_monitor.specs.{Access.{denial_of}, Calls.{follow_up_denial, follow_up_entry, pend}};
ghost use Rattle.open_transaction.specs.Transactions.{transaction_of};

use crate::operand::name_if_given;
use abstract_monitor::{Called, Denial};
use application_types::generation::Generation;
use application_types::kdcdef_types::TacEntry;
use kd_base::{Bytes, Name, Variant};
use monitor_rules::decide;
use open_transaction::OpenTransaction;
use service_parts::pend_rules::outcome;

// Why a follow-up is denied: PEND FC begins a service, and no other variant does.
fn follow_up_denial(
    generation: &Generation,
    transaction: &OpenTransaction,
    variant: Variant,
    tac: Name,
) -> Option<Denial>
    ensures { result ≡ follow_up_denial (denial_of generation.now) (transaction_of transaction.now) variant tac }
{
    match variant {
        Variant::Fc => decide(generation, transaction.user, transaction.lterm, tac),
        _ => None,
    }
}

// What the generation says of a follow-up that is not denied.
fn follow_up<'a>(
    generation: &'a Generation,
    transaction: &OpenTransaction,
    variant: Variant,
    name: &Option<Name>,
) -> Option<&'a TacEntry>
    ensures { option_copied result ≡ follow_up_entry (denial_of generation.now) generation.now (transaction_of transaction.now) variant name.now }
{
    let Some(tac) = name else {
        return None;
    };
    if follow_up_denial(generation, transaction, variant, *tac).is_some() {
        return None;
    }
    generation.tac(*tac)
}

/// PEND with its operand, if it has one. It takes no memory.
pub(crate) fn pend(
    generation: &Generation,
    asynchronous: bool,
    transaction: &OpenTransaction,
    variant: Variant,
    operand: &Option<Bytes>,
) -> Called
    ensures { (transaction_of transaction.now, result) ≡ pend generation.now asynchronous (transaction_of transaction.now) variant operand.now }
{
    let name = name_if_given(operand);
    let entry = follow_up(generation, transaction, variant, &name);
    let has_message = transaction.messages.has_message();
    match outcome(asynchronous, variant, has_message, entry, name) {
        Ok(outcome) => Called::Pends(variant, outcome),
        Err(cause) => Called::Abnormal(cause),
    }
}
