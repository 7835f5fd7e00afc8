//! Services, jobs, and what a transaction keeps for its replay.

ghost use Rattle.std.specs.Prelude.{◌≡◌};

use crate::call::{Cause, Code};
use crate::key::{Area, ServiceId, Target};
use crate::lists::{Areas, Notes, Parts};
use kd_base::{Bytes, Name};
use std::alloc::AllocError;

/// A service at its last synchronisation point.
pub struct Service {
    pub id: ServiceId,
    /// The TAC that started it: KCTACVG.
    pub first: Name,
    /// The TAC whose unit runs next: KCTACAL.
    pub next: Name,
    /// It awaits the next terminal input.
    pub awaits: bool,
    pub user: Name,
    /// The LTERM of an asynchronous service. `None` exactly for a dialogue service, which has the LTERM of its input.
    pub lterm: Option<Name>,
    /// The communication area KB.
    pub kb: Bytes,
    /// The message that the next program unit reads.
    pub handed: Parts,
    /// The last dialogue message.
    pub last: Option<Bytes>,
    /// The local secondary storage areas, in ascending order of their names without repeats.
    pub lssbs: Areas,
}

impl Drop for Service {
    fn drop(self) {
        let Service {
            id,
            first,
            next,
            awaits,
            user,
            lterm,
            kb,
            handed,
            last,
            lssbs,
        } = self;
        let _ = id;
        let _ = first;
        let _ = next;
        let _ = awaits;
        let _ = user;
        let _ = lterm;
        let _ = kb;
        let _ = handed;
        let _ = last;
        let _ = lssbs;
    }
}

impl Service {
    /// The last dialogue message. All else goes.
    pub fn into_last(self) -> Option<Bytes>
        ensures { result ≡ self.last }
    {
        let Service {
            id,
            first,
            next,
            awaits,
            user,
            lterm,
            kb,
            handed,
            last,
            lssbs,
        } = self;
        let _ = id;
        let _ = first;
        let _ = next;
        let _ = awaits;
        let _ = user;
        let _ = lterm;
        let _ = kb;
        let _ = handed;
        let _ = lssbs;
        last
    }
}

/// What a job is, beside its number.
pub struct JobValue {
    pub to: Target,
    /// The clock from which on it may be taken.
    pub due: u64,
    /// How often it was delivered again, after an abnormal end of its service. 255 stands for 255 times and more.
    pub redelivered: u8,
    /// The user of the service that made it.
    pub user: Name,
    /// The LTERM of the service that made it.
    pub lterm: Name,
    pub message: Bytes,
}

impl Drop for JobValue {
    fn drop(self) {
        let JobValue {
            to,
            due,
            redelivered,
            user,
            lterm,
            message,
        } = self;
        let _ = to;
        let _ = due;
        let _ = redelivered;
        let _ = user;
        let _ = lterm;
        let _ = message;
    }
}

/// A job: an asynchronous message by its number, from 1 on.
#[derive(Drop)]
pub struct Job {
    pub number: u64,
    pub value: JobValue,
}

/// What a transaction was told of a lock, and which its replay has to be told again.
#[derive(Drop)]
pub enum Note {
    /// It released this area, in which it saw this content.
    Released(Area, Option<Bytes>),
    /// Its request for this area was refused with this code, K04 or K05.
    Refused(Area, Code),
}

/// How a transaction ended.
#[derive(Clone, Copy, PartialEq, Eq)]
pub enum Ending {
    /// By a synchronisation point.
    Synced,
    /// By an abnormal end of this cause.
    Broken(Cause),
    /// By PEND FR.
    BrokenFr,
}

/// What a transaction keeps for its replay.
pub struct Settled {
    pub service: ServiceId,
    /// The service's row as the transaction began, or none for a service without a row.
    pub began: Option<Service>,
    /// The inputs that it accepted.
    pub inputs: Parts,
    pub notes: Notes,
    /// How many statements were done.
    pub statements: u64,
    pub ending: Ending,
}

impl Drop for Settled {
    fn drop(self) {
        let Settled {
            service,
            began,
            inputs,
            notes,
            statements,
            ending,
        } = self;
        let _ = service;
        let _ = began;
        let _ = inputs;
        let _ = notes;
        let _ = statements;
        let _ = ending;
    }
}

impl Clone for Service {
    ghost is_clone = { λ service copy. copy ≡ service };

    fn clone(&self) -> Result<Service, AllocError> {
        Ok(Service {
            id: self.id,
            first: self.first,
            next: self.next,
            awaits: self.awaits,
            user: self.user,
            lterm: self.lterm,
            kb: self.kb.clone()?,
            handed: self.handed.clone()?,
            last: self.last.clone()?,
            lssbs: self.lssbs.clone()?,
        })
    }
}

impl Clone for JobValue {
    ghost is_clone = { λ value copy. copy ≡ value };

    fn clone(&self) -> Result<JobValue, AllocError> {
        Ok(JobValue {
            to: self.to,
            due: self.due,
            redelivered: self.redelivered,
            user: self.user,
            lterm: self.lterm,
            message: self.message.clone()?,
        })
    }
}

impl Clone for Job {
    ghost is_clone = { λ job copy. copy ≡ job };

    fn clone(&self) -> Result<Job, AllocError> {
        Ok(Job {
            number: self.number,
            value: self.value.clone()?,
        })
    }
}
