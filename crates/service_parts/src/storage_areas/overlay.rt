//! Private writes over the tables.
ghost use Rattle.std.specs.{Prelude.{◌≡◌, ◌≤◌, ◌↔◌, [], IsTrue, IfOk, None, OnOk, OnErr, Some, if◌then◌else◌, is_some, length, option_copied}, FinMap.{find, put, is_sorted}};
ghost use Rattle.application_types.specs.Generation.{Generated};
ghost use Rattle.kdcs_types.specs.{Keys.{area_cmp}, Tables.{TableRows, content_of, with_changes, AreChanges}};
ghost use Rattle.kdcs_types.specs.declared.call.Code.TheVariants as kdcs_code;
ghost use Rattle.abstract_monitor.specs.{Bytes.{bytes_cmp}, Calls.{delete_local, replied, shown_by, write_local}, Endings.{with_areas}, State.{OpenTransaction}};
ghost use Rattle.service_parts.specs.Areas.{PrivateAreas, changes_of, is_one_too_many, with_areas_of};

use crate::storage_areas::change::area_change;
use kd_base::sorted_pairs::{OrderedMap, SortedPairs};
use kd_base::{Bytes, Name, OutOfMemory};
use kdcs_types::{Area, Areas, Code, RowChanges, Tables};
use std::alloc::Global;
use std::marker::Model;

/// The areas that a transaction wrote or deleted, and its LSSBs. Contracts see the two lists, in the order of the keys.
/// A call on an area costs in proportion to the logarithm of their number.
pub struct Overlay {
    // none where the area is deleted
    written: OrderedMap<Area, Option<Bytes>>,
    lssbs: SortedPairs<Name, Bytes>,
}

impl Drop for Overlay {
    fn drop(self) {
        let Overlay { written, lssbs } = self;
        let _ = written;
        let _ = lssbs;
    }
}

impl Model for Overlay {
    ghost use Rattle.service_parts.specs.Areas.{PrivateAreas};

    ghost Value = { PrivateAreas };

    ghost view = { λ o. record { written = o.written; lssbs = o.lssbs } };
}

impl Overlay {
    /// Nothing is written. It takes no memory.
    pub fn new(alloc: Global, lssbs: Areas) -> Overlay
        requires ascending { IsTrue (is_sorted bytes_cmp lssbs) }
        ensures { result ≡ record { written = []; lssbs = lssbs } }
    {
        Overlay {
            written: OrderedMap::new(alloc),
            lssbs: SortedPairs::from_vec(lssbs.into_vec()),
        }
    }

    /// The content of an area for this transaction: its own last write or deletion, else what the tables have.
    pub fn read(&self, tables: &Tables, area: &Area) -> Result<Option<Bytes>, OutOfMemory>
        ensures { IfOk result (λ content. content ≡ shown_by (find area_cmp area.now self.now.written) (content_of tables.now area.now)) }
    {
        match self.shown(tables, area) {
            Some(content) => Ok(Some(content.clone()?)),
            None => Ok(None),
        }
    }

    /// The area has this content. On an error nothing changes.
    pub fn write(&mut self, area: Area, content: Bytes) -> Result<(), OutOfMemory>
        ensures ok { OnOk result (self.new ≡ record self.old { written = put area_cmp area (Some content) self.old.written }) }
        ensures err { OnErr result (self.new ≡ self.old) }
    {
        self.written.put(area, Some(content))
    }

    /// The area is absent. On an error nothing changes.
    pub fn delete(&mut self, area: Area) -> Result<(), OutOfMemory>
        ensures ok { OnOk result (self.new ≡ record self.old { written = put area_cmp area None self.old.written }) }
        ensures err { OnErr result (self.new ≡ self.old) }
    {
        self.written.put(area, None)
    }

    /// Whether the transaction wrote or deleted the area. It takes no memory.
    pub fn changed(&self, area: &Area) -> bool
        ensures { result ≡ is_some (find area_cmp area.now self.now.written) }
    {
        self.written.contains_key(area)
    }

    /// The LSSBs, in the order of their names.
    pub fn lssbs(&self) -> &[(Name, Bytes)]
        ensures lssbs { result.now ≡ self.now.lssbs }
        ensures ascending { IsTrue (is_sorted bytes_cmp self.now.lssbs) }
    {
        self.lssbs.as_slice()
    }

    /// The content of an LSSB.
    pub fn read_local(&self, name: Name) -> Result<Option<Bytes>, OutOfMemory>
        ensures { IfOk result (λ content. content ≡ find bytes_cmp name self.now.lssbs) }
    {
        match self.lssbs.get(&name) {
            Some(content) => Ok(Some(content.clone()?)),
            None => Ok(None),
        }
    }

    /// The LSSB has this content: K09 where its name is new and there are `limit` LSSBs. On an error nothing changes.
    pub fn write_local(
        &mut self,
        name: Name,
        content: Bytes,
        limit: u32,
    ) -> Result<Code, OutOfMemory>
        ensures code { IfOk result (λ code. code ≡ (if is_one_too_many limit name self.old.lssbs then kdcs_code.K09 else kdcs_code.Done)) }
        ensures exact { IfOk result (λ code. (g : Generated) (x : OpenTransaction) → g.limits.lssbs ≡ limit → write_local g (with_areas_of x self.old) name content ≡ replied (with_areas_of x self.new) code) }
        ensures err { OnErr result (self.new ≡ self.old) }
    {
        if !self.lssbs.contains_key(&name) && limit as usize <= self.lssbs.len() {
            return Ok(Code::K09);
        }
        self.lssbs.put(name, content)?;
        Ok(Code::Done)
    }

    /// The LSSB is gone: K03 where there is none. It takes no memory.
    pub fn delete_local(&mut self, name: Name) -> Code
        ensures code { result ≡ (if is_some (find bytes_cmp name self.old.lssbs) then kdcs_code.Done else kdcs_code.K03) }
        ensures exact { (x : OpenTransaction) → delete_local (with_areas_of x self.old) name ≡ replied (with_areas_of x self.new) result }
    {
        if !self.lssbs.contains_key(&name) {
            return Code::K03;
        }
        self.lssbs.remove(&name);
        Code::Done
    }

    /// What the writes change in the tables, in the order of the keys.
    pub fn changes(&self, alloc: Global) -> Result<RowChanges, OutOfMemory>
        ensures exact { IfOk result (λ changes. changes ≡ changes_of self.now.written) }
        ensures fit { IfOk result AreChanges }
        ensures tables { IfOk result (λ changes. (t : TableRows) → with_changes t changes ≡ with_areas t self.now.written) }
    {
        let mut changes = RowChanges::new(alloc);
        for (area, content) in self.written.iter() {
            changes.push(area_change(area, content)?)?;
        }
        Ok(changes)
    }

    fn shown<'a>(&'a self, tables: &'a Tables, area: &Area) -> Option<&'a Bytes>
        ensures { option_copied result ≡ shown_by (find area_cmp area.now self.now.written) (content_of tables.now area.now) }
    {
        match self.written.get(area) {
            Some(own) => own.as_ref(),
            None => tables.content(area),
        }
    }
}
