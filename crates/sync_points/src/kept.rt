//! What a transaction keeps for its replay.
ghost use Rattle.std.specs.Prelude.{◌≡◌, ◌∷◌, IfOk, OnOk};
ghost use Rattle.abstract_monitor.specs.Statements.{kept_record};
ghost use Rattle.open_transaction.specs.Transactions.{transaction_of};

use kd_base::{Bytes, Name, OutOfMemory};
use kdcs_types::{Ending, Notes, Parts, Settled};
use open_transaction::OpenTransaction;
use std::alloc::Global;
use std::marker::Model;
use std::mem;

/// What a transaction that ended keeps for its replay. It is made of the transaction where it is asked for, which most runs
/// do not do. Contracts see what is kept.
pub struct KeptRecord {
    transaction: Box<OpenTransaction>,
    ending: Ending,
}

impl Drop for KeptRecord {
    fn drop(self) {
        let KeptRecord {
            transaction,
            ending,
        } = self;
        let _ = transaction;
        let _ = ending;
    }
}

impl Model for KeptRecord {
    ghost use Rattle.kdcs_types.specs.declared.service.Settled.{Settled};
    ghost use Rattle.abstract_monitor.specs.Statements.{kept_record};
    ghost use Rattle.open_transaction.specs.Transactions.{boxed_transaction};

    ghost Value = { Settled };

    ghost view = { λ k. kept_record k.transaction.value.id (boxed_transaction k.transaction) k.ending };
}

fn put_first(parts: &mut Vec<Bytes>, alloc: Global, name: Name) -> Result<(), OutOfMemory>
    ensures { OnOk result (parts.new.items ≡ name ∷ parts.old.items) }
{
    parts.insert(0, Bytes::from_slice(alloc, name.as_slice())?)?;
    Ok(())
}

fn inputs_behind(
    alloc: Global,
    first: Name,
    lterm: Name,
    inputs: Parts,
) -> Result<Parts, OutOfMemory>
    ensures { IfOk result (λ kept. kept ≡ first ∷ lterm ∷ inputs) }
{
    let mut kept = inputs.into_vec();
    put_first(&mut kept, alloc, lterm)?;
    put_first(&mut kept, alloc, first)?;
    Ok(Parts::from_vec(kept))
}

fn settled_of(
    alloc: Global,
    mut transaction: Box<OpenTransaction>,
    ending: Ending,
) -> Result<Settled, OutOfMemory>
    ensures { IfOk result (λ kept. kept ≡ kept_record transaction.value.id (transaction_of transaction.value) ending) }
{
    let inputs = mem::replace(&mut transaction.inputs, Parts::new(alloc));
    let inputs = inputs_behind(alloc, transaction.first, transaction.lterm, inputs)?;
    Ok(Settled {
        service: transaction.id,
        began: transaction.began.take(),
        inputs,
        notes: mem::replace(&mut transaction.notes, Notes::new(alloc)),
        statements: transaction.statements,
        ending,
    })
}

impl KeptRecord {
    /// It takes no memory.
    pub(crate) fn of(transaction: Box<OpenTransaction>, ending: Ending) -> KeptRecord
        ensures { result ≡ kept_record transaction.value.id (transaction_of transaction.value) ending }
    {
        KeptRecord {
            transaction,
            ending,
        }
    }

    /// How the transaction ended. It takes no memory.
    pub fn ending(&self) -> Ending
        ensures { result ≡ self.now.ending }
    {
        self.ending
    }

    /// What its replay has to be told. It takes no memory.
    pub fn notes(&self) -> &Notes
        ensures { result.now ≡ self.now.notes }
    {
        &self.transaction.notes
    }

    /// All that is kept.
    pub fn into_settled(self, alloc: Global) -> Result<Settled, OutOfMemory>
        ensures { IfOk result (λ settled. settled ≡ self) }
    {
        let KeptRecord {
            transaction,
            ending,
        } = self;
        settled_of(alloc, transaction, ending)
    }
}
