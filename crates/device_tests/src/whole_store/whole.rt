//! A store that keeps its content in whole images: each commit writes the unselected image and selects it.
ghost use Rattle.std.specs.Prelude.{◌≡◌, ◌<◌, ◌≤◌, ◌+◌, ◌^◌, [], List, ℕ, IsTrue, length, sum_by, IfOk, OnOk, OnErr, IsErrOf};
ghost use Rattle.kd_device.specs.Device.{State, Rose, Frame, SameFaults, SameNames, LeavesOnly, Only};
ghost use Rattle.kd_device.specs.Rest.{Rests};
ghost use Rattle.kd_records.specs.Identity.{IsIdentity};
ghost use Rattle.kd_records.specs.Contents.{IsContent, patched};
ghost use Rattle.kd_records.specs.Charge.{total_charge};
ghost use Rattle.kd_records.specs.Charged.{record_length};
ghost use Rattle.kd_records.specs.declared.content.Content.{Content};
ghost use Rattle.device_tests.specs.File.{Stands, StandsFor, IsNoImage};
ghost use Rattle.kdcfile_layout.specs.Layout.{fresh};
ghost use Rattle.device_tests.specs.Opened.{identity_of};
ghost use Rattle.kdcfile_store.specs.Kept.{IsKept, OldOrNew};
ghost use Rattle.device_tests.specs.Fresh.{LeavesMade};
ghost use Rattle.device_tests.specs.Whole.{HasFile, LeavesOldOr, made_length, whole_most, root_with};
ghost use Rattle.kdcfile_store.specs.Paged.{identity_with};

use crate::whole_store::commit::commit_image;
use crate::whole_store::image::{Image, Root};
use crate::whole_store::loading::load;
use crate::whole_store::making::create;
use crate::whole_store::spell::records_bytes;
use kd_base::OutOfMemory;
use kd_device::{Device, DeviceError};
use kd_records::{Content, Patch, Records};
use kdcfile_store::{LoadError, Store, StoreLimits};
use std::alloc::Global;
use std::marker::Model;

/// A content in a file of two whole images.
pub struct WholeStore {
    image: Image,
    content: Content,
}

impl Drop for WholeStore {
    fn drop(self) {
        let WholeStore { image, content } = self;
        let _ = image;
        let _ = content;
    }
}

impl Model for WholeStore {
    ghost use Rattle.device_tests.specs.Opened.{identity_of};
    ghost use Rattle.device_tests.specs.Fresh.{LeavesMade};
    ghost use Rattle.device_tests.specs.Whole.{Whole};

    ghost Value = { Whole };

    ghost use Rattle.kd_records.specs.Identity.{IsIdentity};

    ghost view = { λ s. record { identity = identity_of s.image; second = s.image.second; content = s.content } };

    ghost invariant = { λ s. IsIdentity (identity_of s.image) };
}

/// The root of the same file for this content.
fn next_root(image: &Image, content: &Content) -> Root
    requires few { length content.now.items < 2 ^ 32 }
    ensures { result ≡ root_with image.now content.now }
{
    let root = image.root();
    Root {
        fingerprint: root.fingerprint,
        clock: content.clock,
        next_job: content.next_job,
        pgpool: root.pgpool,
        records: content.items.as_slice().len() as u32,
    }
}

/// Writes a content as the unselected image, and selects it.
fn write_content<D: Device>(
    alloc: Global,
    device: &mut D,
    image: &mut Image,
    content: &Content,
) -> Result<(), DeviceError>
    requires identity { IsIdentity (identity_of image.old) }
    requires charge { total_charge image.old.blksize content.now.items ≤ image.old.root.pgpool }
    requires stands { IsTrue (D.state device.old).told → (x : Content) × Stands (identity_of image.old) image.old.second x (D.state device.old).holds }
    requires fits { IsTrue (D.state device.old).told → IsContent content.now }
    requires at_rest { IsTrue (D.state device.old).told → Only (D.state device.old).holds (D.state device.old) (D.leaves device.old) }
    ensures identity { identity_of image.new ≡ identity_of image.old }
    ensures err { OnErr result (image.new ≡ image.old) }
    ensures stands { OnOk result (IsTrue (D.state device.old).told → Stands (identity_of image.old) image.new.second content.now (D.state device.new).holds) }
    ensures at_rest { OnOk result (IsTrue (D.state device.old).told → Only (D.state device.new).holds (D.state device.new) (D.leaves device.new)) }
    ensures sent { IsTrue (D.state device.old).told → (D.state device.new).sent ≡ (D.state device.old).sent }
    ensures any_moment { IsTrue (D.state device.old).told → LeavesOldOr image.old content.now (D.state device.old) (D.state device.new) (D.leaves device.old) (D.leaves device.new) }
    ensures put_most { IsTrue (D.state device.old).told → (D.state device.new).put ≤ (D.state device.old).put + (sum_by record_length content.now.items + 65) }
    ensures failed { IsErrOf result DeviceError.Failed → Rose (D.state device.old).disk_faults (D.state device.new).disk_faults }
    ensures memory { IsErrOf result DeviceError.Memory → IsTrue (D.state device.old).told → Rests (D.state device.old) (D.state device.new) (D.leaves device.old) (D.leaves device.new) }
    ensures fine { (IsErrOf result DeviceError.Failed → ⊥) → SameFaults (D.state device.old) (D.state device.new) }
    ensures frame { Frame (D.state device.old) (D.state device.new) }
    ensures names { SameNames (D.state device.old) (D.state device.new) }
{
    let body = records_bytes(alloc, content.items.as_slice())?;
    let root = next_root(image, content);
    commit_image(alloc, device, image, body.as_slice(), &root)?;
    Ok(())
}

/// The content that a patch makes of this one.
fn next_content(alloc: Global, content: &Content, patch: &Patch) -> Result<Content, OutOfMemory>
    ensures content { IfOk result (λ x. x ≡ patched content.now patch.now) }
    ensures clock { IfOk result (λ x. x.clock < 2 ^ 64) }
    ensures next_job { IfOk result (λ x. x.next_job < 2 ^ 64) }
{
    let next = content.patched(alloc, patch)?;
    Ok(Content {
        clock: patch.clock,
        next_job: patch.next_job,
        items: next.items,
    })
}

impl WholeStore {
    /// Makes the file. A stop leaves it without a content, or with the first one.
    pub fn create<D: Device>(
        alloc: Global,
        device: &mut D,
        limits: &StoreLimits,
        fingerprint: &[u8; 32],
    ) -> Result<WholeStore, DeviceError>
        requires identity { IsIdentity (identity_with limits.now fingerprint.now) }
        requires empty { IsTrue (D.state device.old).told → (D.state device.old).holds ≡ [] }
        requires at_rest { IsTrue (D.state device.old).told → Only (D.state device.old).holds (D.state device.old) (D.leaves device.old) }
        ensures identity { IfOk result (λ s. s.identity ≡ identity_with limits.now fingerprint.now) }
        ensures content { IfOk result (λ s. s.content ≡ fresh) }
        ensures kept { IfOk result (λ s. IsTrue (D.state device.old).told → IsKept (HasFile s) (D.state device.new) (D.leaves device.new)) }
        ensures sent { IsTrue (D.state device.old).told → (D.state device.new).sent ≡ (D.state device.old).sent }
        ensures any_moment { IsTrue (D.state device.old).told → LeavesMade (identity_with limits.now fingerprint.now) (D.state device.old) (D.state device.new) (D.leaves device.old) (D.leaves device.new) }
        ensures put_most { IsTrue (D.state device.old).told → (D.state device.new).put ≤ (D.state device.old).put + made_length (identity_with limits.now fingerprint.now) + 1 }
        ensures failed { IsErrOf result DeviceError.Failed → Rose (D.state device.old).disk_faults (D.state device.new).disk_faults }
        ensures memory { IsErrOf result DeviceError.Memory → IsTrue (D.state device.old).told → Rests (D.state device.old) (D.state device.new) (D.leaves device.old) (D.leaves device.new) }
        ensures fine { (IsErrOf result DeviceError.Failed → ⊥) → SameFaults (D.state device.old) (D.state device.new) }
        ensures frame { Frame (D.state device.old) (D.state device.new) }
        ensures names { SameNames (D.state device.old) (D.state device.new) }
    {
        let image = create(alloc, device, limits.blksize, limits.pgpool, fingerprint)?;
        let content = Content {
            clock: 0,
            next_job: 1,
            items: Records::new(alloc),
        };
        Ok(WholeStore { image, content })
    }

    /// Opens the file, if its bytes stand for an image.
    pub fn load<D: Device>(alloc: Global, device: &mut D) -> Result<WholeStore, LoadError>
        ensures identity { IfOk result (λ s. IsIdentity s.identity) }
        ensures stands { IfOk result (λ s. IsTrue (D.state device.old).told → HasFile s (D.state device.old).holds) }
        ensures kept { IfOk result (λ s. IsTrue (D.state device.old).told → IsKept (HasFile s) (D.state device.new) (D.leaves device.new)) }
        ensures none { IsErrOf result LoadError.NotKdcfile → IsTrue (D.state device.old).told → IsNoImage (D.state device.old).holds }
        ensures rests { IsTrue (D.state device.old).told → Rests (D.state device.old) (D.state device.new) (D.leaves device.old) (D.leaves device.new) }
        ensures failed { IsErrOf result LoadError.Failed → Rose (D.state device.old).disk_faults (D.state device.new).disk_faults }
        ensures fine { (IsErrOf result LoadError.Failed → ⊥) → SameFaults (D.state device.old) (D.state device.new) }
        ensures frame { Frame (D.state device.old) (D.state device.new) }
        ensures names { SameNames (D.state device.old) (D.state device.new) }
    {
        let loaded = load(alloc, device)?;
        let root = *loaded.image.root();
        let content = Content {
            clock: root.clock,
            next_job: root.next_job,
            items: loaded.records,
        };
        Ok(WholeStore {
            image: loaded.image,
            content,
        })
    }

    /// What is kept.
    pub fn kept(&self) -> &Content
        ensures { result.now ≡ self.now.content }
    {
        &self.content
    }

    /// The fingerprint that the file holds.
    pub fn fingerprint(&self) -> &[u8; 32]
        ensures { result.now ≡ self.now.identity.fingerprint }
    {
        &self.image.root().fingerprint
    }

    /// The sizes that the file holds.
    pub fn limits(&self) -> StoreLimits
        ensures blksize { result.blksize ≡ self.now.identity.blksize }
        ensures pgpool { result.pgpool ≡ self.now.identity.pages }
    {
        StoreLimits {
            blksize: self.image.blksize(),
            pgpool: self.image.root().pgpool,
        }
    }
}

impl<D: Device> Store<D> for WholeStore {
    ghost identity = { λ s. s.identity };

    ghost kept = { λ s. s.content };

    ghost file = { HasFile };

    ghost stands = { StandsFor };

    ghost most_written = { whole_most };

    fn content(&self) -> &Content {
        self.kept()
    }

    fn commit(&mut self, alloc: Global, device: &mut D, patch: &Patch) -> Result<(), DeviceError> {
        // A copy, since the old content is kept until the new one is on the disk.
        let next = next_content(alloc, &self.content, patch)?;
        write_content(alloc, device, &mut self.image, &next)?;
        self.content = next;
        Ok(())
    }

    ghost file_stands = { λ s bytes file. (s.second, file) };
}
