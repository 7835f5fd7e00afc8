//! What the monitor does to the outside.
ghost use Rattle.std.specs.Prelude.{◌≡◌};
ghost use Rattle.kdcs_types.specs.Tables.{row_key, change_key};

use crate::key::{Key, ServiceId};
use crate::service::{JobValue, Service};
use kd_base::{Bytes, Name, Sequence};
use std::alloc::AllocError;

/// A row of the tables: a key with its value.
#[derive(Drop)]
pub enum Row {
    Gssb(Name, Bytes),
    /// A block, its LTERM, and a content that is not empty.
    Tls(Name, Name, Bytes),
    /// A block, its user, and a content that is not empty.
    Uls(Name, Name, Bytes),
    /// A service under its id.
    Service(ServiceId, Service),
    /// A job under its number.
    Job(u64, JobValue),
    /// The message that an LTERM shows.
    Shown(Name, JobValue),
}

/// What happens to the row of one key.
#[derive(Drop)]
pub enum Change {
    /// It is this row.
    Set(Row),
    /// It is gone, if it was there.
    Remove(Key),
}

/// Changes of rows, in ascending order of their keys where a commit has them.
pub type RowChanges = Sequence<Change>;

impl Row {
    /// The key that the row is at.
    pub fn key(&self) -> Key
        ensures { result ≡ row_key self.now }
    {
        match self {
            Row::Gssb(name, _) => Key::Gssb(*name),
            Row::Tls(block, lterm, _) => Key::Tls(*block, *lterm),
            Row::Uls(block, user, _) => Key::Uls(*block, *user),
            Row::Service(id, _) => Key::Service(*id),
            Row::Job(number, _) => Key::Job(*number),
            Row::Shown(lterm, _) => Key::Shown(*lterm),
        }
    }
}

impl Change {
    /// The key of the row that it sets or removes.
    pub fn key(&self) -> Key
        ensures { result ≡ change_key self.now }
    {
        match self {
            Change::Set(row) => row.key(),
            Change::Remove(key) => *key,
        }
    }
}

impl Clone for Row {
    ghost is_clone = { λ row copy. copy ≡ row };

    fn clone(&self) -> Result<Row, AllocError> {
        Ok(match self {
            Row::Gssb(name, content) => Row::Gssb(*name, content.clone()?),
            Row::Tls(block, lterm, content) => Row::Tls(*block, *lterm, content.clone()?),
            Row::Uls(block, user, content) => Row::Uls(*block, *user, content.clone()?),
            Row::Service(id, service) => Row::Service(*id, service.clone()?),
            Row::Job(number, value) => Row::Job(*number, value.clone()?),
            Row::Shown(lterm, value) => Row::Shown(*lterm, value.clone()?),
        })
    }
}

impl Clone for Change {
    ghost is_clone = { λ change copy. copy ≡ change };

    fn clone(&self) -> Result<Change, AllocError> {
        Ok(match self {
            Change::Set(row) => Change::Set(row.clone()?),
            Change::Remove(key) => Change::Remove(*key),
        })
    }
}

/// What one commit changes: the durable tables before it become those after it.
pub struct Changes {
    /// The new clock.
    pub clock: u64,
    /// The new next job number.
    pub next_job: u64,
    pub items: RowChanges,
}

impl Drop for Changes {
    fn drop(self) {
        let Changes {
            clock,
            next_job,
            items,
        } = self;
        let _ = clock;
        let _ = next_job;
        let _ = items;
    }
}

/// A commit to the KDCFILE, or a line that is sent.
#[derive(Drop)]
pub enum Act {
    Commit(Changes),
    Emit(Bytes),
}

/// Acts in the order in which they are done.
pub type Acts = Sequence<Act>;
