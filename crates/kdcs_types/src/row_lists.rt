//! The lists of the tables.
ghost use Rattle.std.specs.{Prelude.{◌≡◌, ◌+◌, ◌≤◌, ℕ, [], IsTrue, length, OnOk}, List.{list_all}};
ghost use Rattle.kdcs_types.specs.{Tables.{IsSortedTables, row_fits, change_fits, with_row, without_row, with_change, with_changes}, RowsKept.{tables_in, HasCapacity, HasSameRows}};

use crate::act::{Change, Row};
use crate::key::Key;
use crate::places::{
    gssb_place, job_place, remove, service_place, set, shown_place, tls_place, uls_place,
};
use crate::service::{Job, JobValue, Service};
use kd_base::{Bytes, Name, OutOfMemory};
use std::alloc::{AllocError, Global};

/// The rows of the tables, each list in ascending order of its keys without repeats.
pub(crate) struct RowLists {
    pub(crate) gssbs: Vec<(Name, Bytes)>,
    pub(crate) tlss: Vec<(Name, Name, Bytes)>,
    pub(crate) ulss: Vec<(Name, Name, Bytes)>,
    pub(crate) services: Vec<Service>,
    pub(crate) jobs: Vec<Job>,
    pub(crate) shown: Vec<(Name, JobValue)>,
}

impl Drop for RowLists {
    fn drop(self) {
        let RowLists {
            gssbs,
            tlss,
            ulss,
            services,
            jobs,
            shown,
        } = self;
        let _ = gssbs;
        let _ = tlss;
        let _ = ulss;
        let _ = services;
        let _ = jobs;
        let _ = shown;
    }
}

impl Clone for RowLists {
    ghost is_clone = { λ rows copy. HasSameRows copy rows };

    fn clone(&self) -> Result<RowLists, AllocError> {
        Ok(RowLists {
            gssbs: self.gssbs.clone()?,
            tlss: self.tlss.clone()?,
            ulss: self.ulss.clone()?,
            services: self.services.clone()?,
            jobs: self.jobs.clone()?,
            shown: self.shown.clone()?,
        })
    }
}

impl RowLists {
    ghost use Rattle.kdcs_types.specs.Tables.{empty_tables};

    pub(crate) fn new(alloc: Global) -> RowLists
        ensures { tables_in 0 1 result ≡ empty_tables }
    {
        RowLists {
            gssbs: Vec::new(alloc),
            tlss: Vec::new(alloc),
            ulss: Vec::new(alloc),
            services: Vec::new(alloc),
            jobs: Vec::new(alloc),
            shown: Vec::new(alloc),
        }
    }

    /// Takes the capacity for so many more rows of each kind.
    pub(crate) fn reserve(&mut self, n: usize) -> Result<(), OutOfMemory>
        ensures rows { HasSameRows self.new self.old }
        ensures capacity { OnOk result (HasCapacity n self.new) }
    {
        self.gssbs.reserve(n)?;
        self.tlss.reserve(n)?;
        self.ulss.reserve(n)?;
        self.services.reserve(n)?;
        self.jobs.reserve(n)?;
        self.shown.reserve(n)?;
        Ok(())
    }

    fn set(&mut self, row: Row)
        requires sorted { IsSortedTables (tables_in 0 0 self.old) }
        requires fits { IsTrue (row_fits row) }
        requires capacity { HasCapacity 1 self.old }
        ensures rows { tables_in 0 0 self.new ≡ with_row (tables_in 0 0 self.old) row }
        ensures capacity { (n : ℕ) → HasCapacity (n + 1) self.old → HasCapacity n self.new }
    {
        match row {
            Row::Gssb(name, content) => {
                let place = gssb_place(&self.gssbs, name);
                set(&mut self.gssbs, place, (name, content));
            }
            Row::Tls(block, lterm, content) => {
                let place = tls_place(&self.tlss, block, lterm);
                set(&mut self.tlss, place, (block, lterm, content));
            }
            Row::Uls(block, user, content) => {
                let place = uls_place(&self.ulss, block, user);
                set(&mut self.ulss, place, (block, user, content));
            }
            Row::Service(_, service) => {
                let place = service_place(&self.services, service.id);
                set(&mut self.services, place, service);
            }
            Row::Job(number, value) => {
                let place = job_place(&self.jobs, number);
                set(&mut self.jobs, place, Job { number, value });
            }
            Row::Shown(lterm, value) => {
                let place = shown_place(&self.shown, lterm);
                set(&mut self.shown, place, (lterm, value));
            }
        }
    }

    fn remove(&mut self, key: Key)
        requires sorted { IsSortedTables (tables_in 0 0 self.old) }
        ensures rows { tables_in 0 0 self.new ≡ without_row (tables_in 0 0 self.old) key }
        ensures capacity { (n : ℕ) → HasCapacity (n + 1) self.old → HasCapacity n self.new }
    {
        match key {
            Key::Gssb(name) => {
                let place = gssb_place(&self.gssbs, name);
                remove(&mut self.gssbs, place);
            }
            Key::Tls(block, lterm) => {
                let place = tls_place(&self.tlss, block, lterm);
                remove(&mut self.tlss, place);
            }
            Key::Uls(block, user) => {
                let place = uls_place(&self.ulss, block, user);
                remove(&mut self.ulss, place);
            }
            Key::Service(id) => {
                let place = service_place(&self.services, id);
                remove(&mut self.services, place);
            }
            Key::Job(number) => {
                let place = job_place(&self.jobs, number);
                remove(&mut self.jobs, place);
            }
            Key::Shown(lterm) => {
                let place = shown_place(&self.shown, lterm);
                remove(&mut self.shown, place);
            }
        }
    }

    fn make(&mut self, change: Change)
        requires sorted { IsSortedTables (tables_in 0 0 self.old) }
        requires fits { IsTrue (change_fits change) }
        requires capacity { HasCapacity 1 self.old }
        ensures rows { tables_in 0 0 self.new ≡ with_change (tables_in 0 0 self.old) change }
        ensures capacity { (n : ℕ) → HasCapacity (n + 1) self.old → HasCapacity n self.new }
    {
        match change {
            Change::Set(row) => self.set(row),
            Change::Remove(key) => self.remove(key),
        }
    }

    /// Makes the changes one after another. There is capacity for them.
    pub(crate) fn make_all(&mut self, changes: Vec<Change>)
        requires sorted { IsSortedTables (tables_in 0 0 self.old) }
        requires fit { IsTrue (list_all change_fits changes.items) }
        requires capacity { HasCapacity (length changes.items) self.old }
        ensures { tables_in 0 0 self.new ≡ with_changes (tables_in 0 0 self.old) changes.items }
    {
        for change in changes {
            self.make(change);
        }
    }
}
