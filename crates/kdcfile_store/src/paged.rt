//! A store that keeps its content in pages: a commit writes the records that it changes on free pages, the pages of the
//! directory with their slots, and the unselected root, and then selects that image.
ghost use Rattle.std.specs.Prelude.{◌≡◌, ◌≤◌, ◌+◌, [], IsTrue, length, IfOk, OnOk, OnErr, IsErrOf};
ghost use Rattle.kd_device.specs.{Device.{Rose, Frame, SameFaults, SameNames, Only}, Rest.{Rests}};
ghost use Rattle.kd_records.specs.Identity.{IsIdentity};
ghost use Rattle.kdcfile_layout.specs.Layout.{StandsFor, IsNoImage, fresh};
ghost use Rattle.kd_records.specs.{Charge.{total_charge}, Contents.{IsContent, IsPatch, patched}};
ghost use Rattle.kdcfile_store.specs.{Carried.{LeavesCarried, carry_most}, Kept.{IsKept, LeavesPatched, write_most}, Paged.{HasFile, IsPaged, LeavesMade, identity_with, made_length}};

use crate::carrying::{Whole, make_whole};
use crate::filed::Filed;
use crate::fresh::{fresh_pool, fresh_table};
use crate::next::{Next, make_next};
use crate::store::{Store, StoreLimits};
use kd_device::{Device, DeviceError};
use kd_records::{Content, Patch, Records};
use kdcfile_layout::kdcfile_images::{Image, commit_image, create};
use kdcfile_layout::page_pool::Pool;
use kdcfile_load::{LoadError, load};
use page_drafts::Table;
use std::alloc::Global;
use std::marker::Model;
use std::mem;

/// A content in a file of pages: the selected image, the slots of its directory with their index, the pages that it
/// uses, and the content. The drop is written: a derived one is proved field by field wherever a store is owned.
pub struct PagedStore {
    image: Image,
    filed: Filed,
    pool: Pool,
}

impl Drop for PagedStore {
    fn drop(self) {
        let PagedStore { image, filed, pool } = self;
        let _ = image;
        let _ = filed;
        let _ = pool;
    }
}

impl Model for PagedStore {
    ghost use Rattle.kdcfile_layout.specs.Opened.{identity_of, layout_in};
    ghost use Rattle.kdcfile_store.specs.Paged.{Paged, IsPaged};

    ghost Value = { Paged };

    ghost view = { λ s. record { identity = identity_of s.image; second = s.image.second; content = s.filed.content; layout = layout_in s.image.root s.filed.table; used = s.pool } };

    ghost invariant = { λ s. IsPaged (record { identity = identity_of s.image; second = s.image.second; content = s.filed.content; layout = layout_in s.image.root s.filed.table; used = s.pool }) };
}

impl PagedStore {
    /// Makes the file. A stop leaves it without a content, or with the first one.
    pub fn create<D: Device>(
        alloc: Global,
        device: &mut D,
        limits: &StoreLimits,
        fingerprint: &[u8; 32],
    ) -> Result<PagedStore, DeviceError>
        requires identity { IsIdentity (identity_with limits.now fingerprint.now) }
        requires empty { IsTrue (D.state device.old).told → (D.state device.old).holds ≡ [] }
        requires at_rest { IsTrue (D.state device.old).told → Only (D.state device.old).holds (D.state device.old) (D.leaves device.old) }
        ensures identity { IfOk result (λ s. s.identity ≡ identity_with limits.now fingerprint.now) }
        ensures content { IfOk result (λ s. s.content ≡ fresh) }
        ensures kept { IfOk result (λ s. IsTrue (D.state device.old).told → IsKept (HasFile s) (D.state device.new) (D.leaves device.new)) }
        ensures sent { IsTrue (D.state device.old).told → (D.state device.new).sent ≡ (D.state device.old).sent }
        ensures any_moment { IsTrue (D.state device.old).told → LeavesMade (identity_with limits.now fingerprint.now) (D.state device.old) (D.state device.new) (D.leaves device.old) (D.leaves device.new) }
        ensures put_most { IsTrue (D.state device.old).told → (D.state device.new).put ≤ (D.state device.old).put + made_length (identity_with limits.now fingerprint.now) + 1 }
        ensures failed { IsErrOf result DeviceError.Failed → Rose (D.state device.old).disk_faults (D.state device.new).disk_faults }
        ensures memory { IsErrOf result DeviceError.Memory → IsTrue (D.state device.old).told → Rests (D.state device.old) (D.state device.new) (D.leaves device.old) (D.leaves device.new) }
        ensures fine { (IsErrOf result DeviceError.Failed → ⊥) → SameFaults (D.state device.old) (D.state device.new) }
        ensures frame { Frame (D.state device.old) (D.state device.new) }
        ensures names { SameNames (D.state device.old) (D.state device.new) }
    {
        // All memory is taken before the file is made.
        let pool = fresh_pool(alloc, limits.blksize, limits.pgpool)?;
        let table = fresh_table(alloc, limits.blksize, limits.pgpool)?;
        let image = create(alloc, device, limits.blksize, limits.pgpool, fingerprint)?;
        let content = Content {
            clock: 0,
            next_job: 1,
            items: Records::new(alloc),
        };
        Ok(PagedStore {
            image,
            filed: Filed { table, content },
            pool,
        })
    }

    /// Opens the file, if its bytes stand for an image.
    pub fn load<D: Device>(alloc: Global, device: &mut D) -> Result<PagedStore, LoadError>
        ensures identity { IfOk result (λ s. IsIdentity s.identity) }
        ensures stands { IfOk result (λ s. IsTrue (D.state device.old).told → HasFile s (D.state device.old).holds) }
        ensures kept { IfOk result (λ s. IsTrue (D.state device.old).told → IsKept (HasFile s) (D.state device.new) (D.leaves device.new)) }
        ensures none { IsErrOf result LoadError.NotKdcfile → IsTrue (D.state device.old).told → IsNoImage (D.state device.old).holds }
        ensures rests { IsTrue (D.state device.old).told → Rests (D.state device.old) (D.state device.new) (D.leaves device.old) (D.leaves device.new) }
        ensures failed { IsErrOf result LoadError.Failed → Rose (D.state device.old).disk_faults (D.state device.new).disk_faults }
        ensures fine { (IsErrOf result LoadError.Failed → ⊥) → SameFaults (D.state device.old) (D.state device.new) }
        ensures frame { Frame (D.state device.old) (D.state device.new) }
        ensures names { SameNames (D.state device.old) (D.state device.new) }
    {
        let loaded = load(alloc, device)?;
        let Ok(table) = Table::from_slots(alloc, loaded.slots) else {
            return Err(LoadError::Memory);
        };
        Ok(PagedStore {
            image: loaded.image,
            filed: Filed {
                table,
                content: loaded.content,
            },
            pool: loaded.pool,
        })
    }

    /// Keeps another content instead, in the same file with this fingerprint and a page pool that is no smaller, whole or
    /// not at all. All memory is taken before the first write. It writes all pages of the content anew.
    pub fn carry<D: Device>(
        &mut self,
        alloc: Global,
        device: &mut D,
        limits: &StoreLimits,
        fingerprint: &[u8; 32],
        content: Content,
    ) -> Result<(), DeviceError>
        requires kept { IsTrue (D.state device.old).told → IsKept (HasFile self.old) (D.state device.old) (D.leaves device.old) }
        requires identity { IsIdentity (identity_with limits.now fingerprint.now) }
        requires blksize { limits.now.blksize ≡ self.old.identity.blksize }
        requires pgpool { self.old.identity.pages ≤ limits.now.pgpool }
        requires content { IsContent content }
        requires charge_before { total_charge self.old.identity.blksize self.old.content.items ≤ self.old.identity.pages }
        requires charge_after { total_charge limits.now.blksize content.items ≤ limits.now.pgpool }
        ensures content { OnOk result (self.new.content ≡ content) }
        ensures identity { OnOk result (self.new.identity ≡ identity_with limits.now fingerprint.now) }
        ensures same { OnErr result (self.new ≡ self.old) }
        ensures kept { OnOk result (IsTrue (D.state device.old).told → IsKept (HasFile self.new) (D.state device.new) (D.leaves device.new)) }
        ensures sent { IsTrue (D.state device.old).told → (D.state device.new).sent ≡ (D.state device.old).sent }

        // A stop at any moment of the call leaves the old content as it was made, or the new one.
        ensures any_moment { IsTrue (D.state device.old).told → LeavesCarried self.old.identity self.old.content (identity_with limits.now fingerprint.now) content (D.state device.old) (D.state device.new) (D.leaves device.old) (D.leaves device.new) }

        ensures put_most { IsTrue (D.state device.old).told → (D.state device.new).put ≤ (D.state device.old).put + carry_most (identity_with limits.now fingerprint.now) content }
        ensures failed { IsErrOf result DeviceError.Failed → Rose (D.state device.old).disk_faults (D.state device.new).disk_faults }
        ensures memory { IsErrOf result DeviceError.Memory → IsTrue (D.state device.old).told → Rests (D.state device.old) (D.state device.new) (D.leaves device.old) (D.leaves device.new) }
        ensures fine { (IsErrOf result DeviceError.Failed → ⊥) → SameFaults (D.state device.old) (D.state device.new) }
        ensures frame { Frame (D.state device.old) (D.state device.new) }
        ensures names { SameNames (D.state device.old) (D.state device.new) }
    {
        let whole = make_whole(alloc, limits, fingerprint, &self.pool, content)?;
        let Whole {
            filed,
            pool,
            root,
            writes,
        } = whole;
        commit_image(alloc, device, &mut self.image, writes, root)?;
        self.filed = filed;
        self.pool = pool;
        Ok(())
    }

    // Makes these changes in a file that has `long` bytes.
    fn commit_in<D: Device>(
        &mut self,
        alloc: Global,
        device: &mut D,
        patch: &Patch,
        long: u64,
    ) -> Result<(), DeviceError>
        requires kept { IsTrue (D.state device.old).told → IsKept (HasFile self.old) (D.state device.old) (D.leaves device.old) }
        requires patch { IsPatch patch.now }
        requires charge_before { total_charge self.old.identity.blksize self.old.content.items ≤ self.old.identity.pages }
        requires charge_after { total_charge self.old.identity.blksize (patched self.old.content patch.now).items ≤ self.old.identity.pages }
        requires long { IsTrue (D.state device.old).told → long ≤ length (D.state device.old).holds }
        ensures content { OnOk result (self.new.content ≡ patched self.old.content patch.now) }
        ensures identity { self.new.identity ≡ self.old.identity }
        ensures kept { OnOk result (IsTrue (D.state device.old).told → IsKept (HasFile self.new) (D.state device.new) (D.leaves device.new)) }
        ensures sent { IsTrue (D.state device.old).told → (D.state device.new).sent ≡ (D.state device.old).sent }
        ensures any_moment { IsTrue (D.state device.old).told → LeavesPatched (StandsFor self.old.identity) self.old.content patch.now (D.state device.old) (D.state device.new) (D.leaves device.old) (D.leaves device.new) }
        ensures put_most { IsTrue (D.state device.old).told → (D.state device.new).put ≤ (D.state device.old).put + write_most self.old.identity self.old.content patch.now }
        ensures failed { IsErrOf result DeviceError.Failed → Rose (D.state device.old).disk_faults (D.state device.new).disk_faults }
        ensures memory { IsErrOf result DeviceError.Memory → IsTrue (D.state device.old).told → Rests (D.state device.old) (D.state device.new) (D.leaves device.old) (D.leaves device.new) }
        ensures memory_store { IsErrOf result DeviceError.Memory → self.new ≡ self.old }
        ensures fine { (IsErrOf result DeviceError.Failed → ⊥) → SameFaults (D.state device.old) (D.state device.new) }
        ensures frame { Frame (D.state device.old) (D.state device.new) }
        ensures names { SameNames (D.state device.old) (D.state device.new) }
    {
        let filed = mem::replace(&mut self.filed, Filed::nothing(alloc));
        let next = match make_next(alloc, &self.image, &self.pool, filed, patch, long) {
            Ok(next) => next,
            Err(filed) => {
                self.filed = filed;
                return Err(DeviceError::Memory);
            }
        };
        let Next {
            filing,
            root,
            writes,
            last,
        } = next;
        match commit_image(alloc, device, &mut self.image, writes, root) {
            Ok(()) => {
                self.filed = filing.done();
                self.pool.carry_out(last);
                Ok(())
            }
            Err(error) => {
                self.filed = filing.back();
                Err(error)
            }
        }
    }

    /// A law: the store is in order. It does nothing.
    pub fn is_in_order(&self)
        ensures { IsPaged self.now }
    {
        let _ = &self.filed;
    }

    /// What is kept.
    pub fn kept(&self) -> &Content
        ensures { result.now ≡ self.now.content }
    {
        &self.filed.content
    }

    /// The fingerprint that the file holds.
    pub fn fingerprint(&self) -> &[u8; 32]
        ensures { result.now ≡ self.now.identity.fingerprint }
    {
        &self.image.root().fingerprint
    }

    /// The sizes that the file holds.
    pub fn limits(&self) -> StoreLimits
        ensures blksize { result.blksize ≡ self.now.identity.blksize }
        ensures pgpool { result.pgpool ≡ self.now.identity.pages }
    {
        StoreLimits {
            blksize: self.image.blksize(),
            pgpool: self.image.root().pgpool,
        }
    }
}

impl<D: Device> Store<D> for PagedStore {
    ghost identity = { λ s. s.identity };

    ghost kept = { λ s. s.content };

    ghost file = { HasFile };

    ghost stands = { StandsFor };

    ghost most_written = { write_most };

    fn content(&self) -> &Content {
        self.kept()
    }

    fn commit(&mut self, alloc: Global, device: &mut D, patch: &Patch) -> Result<(), DeviceError> {
        let long = device.size()?;
        self.commit_in(alloc, device, patch, long)
    }

    ghost file_stands = { λ s bytes file. (s.second, s.layout, file) };
}
