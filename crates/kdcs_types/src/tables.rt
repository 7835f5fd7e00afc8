//! What the monitor keeps over a warm start.
ghost use Rattle.std.specs.Prelude.{◌≡◌, OnOk, OnErr, option_copied};
ghost use Rattle.kdcs_types.specs.Tables.{empty_tables, content_of, service_of, job_of, shown_of, changed, AreChanges, IsSortedTables};

use crate::act::Changes;
use crate::key::{Area, ServiceId};
use crate::places::{
    found, gssb_place, job_place, service_place, shown_place, tls_place, uls_place,
};
use crate::row_lists::RowLists;
use crate::service::{Job, JobValue, Service};
use kd_base::{Bytes, Name, OutOfMemory};
use std::alloc::{AllocError, Global};
use std::marker::Model;

/// The durable tables. Contracts see the two numbers and the lists, each in ascending order of its keys without repeats.
pub struct Tables {
    clock: u64,
    next_job: u64,
    rows: RowLists,
    alloc: Global,
}

impl Drop for Tables {
    fn drop(self) {
        let Tables {
            clock,
            next_job,
            rows,
            alloc,
        } = self;
        let _ = clock;
        let _ = next_job;
        let _ = rows;
        let _ = alloc;
    }
}

impl Model for Tables {
    ghost use Rattle.kdcs_types.specs.{Tables.{TableRows, IsSortedTables}, RowsKept.{tables_in}};

    ghost Value = { TableRows };

    ghost view = { λ t. tables_in t.clock t.next_job t.rows };

    ghost invariant = { λ t. IsSortedTables (tables_in t.clock t.next_job t.rows) };
}

impl Clone for Tables {
    ghost is_clone = { λ tables copy. copy ≡ tables };

    fn clone(&self) -> Result<Tables, AllocError> {
        Ok(Tables {
            clock: self.clock,
            next_job: self.next_job,
            rows: self.rows.clone()?,
            alloc: self.alloc,
        })
    }
}

impl Tables {
    /// No rows, clock 0 and next job number 1.
    pub fn empty(alloc: Global) -> Tables
        ensures { result ≡ empty_tables }
    {
        Tables {
            clock: 0,
            next_job: 1,
            rows: RowLists::new(alloc),
            alloc,
        }
    }

    /// In ticks.
    pub fn clock(&self) -> u64
        ensures value { result ≡ self.now.clock }
        ensures sorted { IsSortedTables self.now }
    {
        self.clock
    }

    /// The number that the next job gets.
    pub fn next_job(&self) -> u64
        ensures { result ≡ self.now.next_job }
    {
        self.next_job
    }

    /// Global secondary storage areas: name and content.
    pub fn gssbs(&self) -> &[(Name, Bytes)]
        ensures { result.now ≡ self.now.gssbs }
    {
        self.rows.gssbs.as_slice()
    }

    /// Blocks of terminal-specific long-term storage: block, LTERM and content.
    pub fn tlss(&self) -> &[(Name, Name, Bytes)]
        ensures { result.now ≡ self.now.tlss }
    {
        self.rows.tlss.as_slice()
    }

    /// Blocks of user-specific long-term storage: block, user and content.
    pub fn ulss(&self) -> &[(Name, Name, Bytes)]
        ensures { result.now ≡ self.now.ulss }
    {
        self.rows.ulss.as_slice()
    }

    pub fn services(&self) -> &[Service]
        ensures { result.now ≡ self.now.services }
    {
        self.rows.services.as_slice()
    }

    pub fn jobs(&self) -> &[Job]
        ensures { result.now ≡ self.now.jobs }
    {
        self.rows.jobs.as_slice()
    }

    /// The message that each LTERM shows.
    pub fn shown(&self) -> &[(Name, JobValue)]
        ensures { result.now ≡ self.now.shown }
    {
        self.rows.shown.as_slice()
    }

    /// The content of an area. It takes no memory.
    pub fn content(&self, area: &Area) -> Option<&Bytes>
        ensures { option_copied result ≡ content_of self.now area.now }
    {
        match area {
            Area::Gssb(name) => match found(&self.rows.gssbs, gssb_place(&self.rows.gssbs, *name)) {
                Some(row) => Some(&row.1),
                None => None,
            },
            Area::Tls(block, lterm) => {
                match found(&self.rows.tlss, tls_place(&self.rows.tlss, *block, *lterm)) {
                    Some(row) => Some(&row.2),
                    None => None,
                }
            }
            Area::Uls(block, user) => {
                match found(&self.rows.ulss, uls_place(&self.rows.ulss, *block, *user)) {
                    Some(row) => Some(&row.2),
                    None => None,
                }
            }
        }
    }

    /// The row of a service. It takes no memory.
    pub fn service(&self, id: ServiceId) -> Option<&Service>
        ensures { option_copied result ≡ service_of self.now id }
    {
        found(&self.rows.services, service_place(&self.rows.services, id))
    }

    /// The job with this number. It takes no memory.
    pub fn job(&self, number: u64) -> Option<&JobValue>
        ensures { option_copied result ≡ job_of self.now number }
    {
        match found(&self.rows.jobs, job_place(&self.rows.jobs, number)) {
            Some(row) => Some(&row.value),
            None => None,
        }
    }

    /// The message that an LTERM shows. It takes no memory.
    pub fn shown_at(&self, lterm: Name) -> Option<&JobValue>
        ensures { option_copied result ≡ shown_of self.now lterm }
    {
        match found(&self.rows.shown, shown_place(&self.rows.shown, lterm)) {
            Some(row) => Some(&row.1),
            None => None,
        }
    }

    /// Makes the changes, which cost in proportion to their number, and to the rows after those that come or go. On an
    /// error the tables stay as they were.
    pub fn change(&mut self, changes: &Changes) -> Result<(), OutOfMemory>
        requires { AreChanges changes.now.items }
        ensures ok { OnOk result (self.new ≡ changed self.old changes.now) }
        ensures err { OnErr result (self.new ≡ self.old) }
    {
        let items = changes.items.as_slice().to_vec(self.alloc)?;
        self.rows.reserve(items.len())?;
        self.clock = changes.clock;
        self.next_job = changes.next_job;
        self.rows.make_all(items);
        Ok(())
    }
}
