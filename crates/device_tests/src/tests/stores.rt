//! kdcfile_store and whole_store: one table of commits over both stores. After each commit the file is loaded again, and
//! after a stop at each call within it, which leaves the old content or the new one.
ghost use Rattle.std.specs.{FinMap.{is_sorted}, Prelude.{◌≡◌, ◌≤◌, IsTrue, All, IfOk, OnOk}};
ghost use Rattle.kd_device.specs.Memory.{state_of, leaves_of};
ghost use Rattle.kd_records.specs.{Charge.{IsBlockSize, total_charge}, Contents.{Change, IsKey, IsPatch}, Keys.{key_cmp}};
ghost use Rattle.kdcfile_store.specs.Kept.{IsKept};

use crate::whole_store::WholeStore;
use kd_base::Bytes;
use kd_base::sorted_pairs::SortedPairs;
use kd_device::MemDevice;
use kd_records::{Content, Patch, PatchItems, RecordKey, Records, charge};
use kdcfile_store::{PagedStore, Store, StoreLimits};
use std::alloc::Global;
use std::process::Abort;
use std::test::Fail;

const LIMITS: StoreLimits = StoreLimits {
    blksize: 2048,
    pgpool: 16,
};

/// A store that can be loaded.
trait Loads {
    /// Whether the file is loaded and has this content.
    fn loads(alloc: Global, device: &mut MemDevice, want: &Content) -> Result<bool, Fail>;
}

impl Loads for PagedStore {
    fn loads(alloc: Global, device: &mut MemDevice, want: &Content) -> Result<bool, Fail> {
        Ok(same(PagedStore::load(alloc, device)?.kept(), want))
    }
}

impl Loads for WholeStore {
    fn loads(alloc: Global, device: &mut MemDevice, want: &Content) -> Result<bool, Fail> {
        Ok(same(WholeStore::load(alloc, device)?.kept(), want))
    }
}

fn same(one: &Content, other: &Content) -> bool {
    one.clock == other.clock
        && one.next_job == other.next_job
        && one.items.as_slice() == other.items.as_slice()
}

// What a step does to the record of this kind, with this byte in front of its key: it has a value of so many bytes, or
// goes.
type Row = (u8, u8, Option<usize>);

// The new value of a row, whose bytes tell the step and their places.
fn value(alloc: Global, step: u8, row: &Row) -> Result<Option<Bytes>, Fail> {
    let Some(len) = row.2 else {
        return Ok(None);
    };
    let mut bytes = Bytes::new(alloc);
    for n in 0..len {
        bytes.push((n / 7 % 256) as u8 ^ step)?;
    }
    Ok(Some(bytes))
}

fn patch_of(alloc: Global, step: u8, rows: &[Row]) -> Result<Patch, Fail>
    ensures { IfOk result (λ p. IsTrue (is_sorted key_cmp p.items)) }
{
    let mut items = SortedPairs::new(alloc);
    for row in rows {
        let mut bytes = [0; 24];
        bytes[0] = row.1;
        let key = RecordKey { kind: row.0, bytes };
        items.put(key, value(alloc, step, row)?)?;
    }
    Ok(Patch {
        clock: u64::from(step),
        next_job: 1000 + u64::from(step),
        items: PatchItems::from_vec(items.into_vec()),
    })
}

fn is_key(key: &RecordKey) -> bool
    ensures { IsTrue result → IsKey key.now }
{
    key.kind != 0 && key.bytes.len() == 24
}

// Whether records with these keys may be kept.
fn are_keys(items: &[(RecordKey, Option<Bytes>)]) -> bool
    ensures { IsTrue result → All (λ (c : Change). IsKey c.0) items.now }
{
    for item in items {
        if !is_key(&item.0) {
            return false;
        }
    }
    true
}

// Whether there are pages for these records.
fn fit(items: &[(RecordKey, Bytes)]) -> bool
    ensures { IsTrue result → total_charge 2048 items.now ≤ 16 }
{
    let mut left: u64 = 16;
    for item in items {
        let pages = charge(item.1.len() as u64, 2048);
        if pages > left {
            return false;
        }
        left -= pages;
    }
    true
}

fn copy_of(alloc: Global, content: &Content) -> Result<Content, Fail> {
    Ok(Content {
        clock: content.clock,
        next_job: content.next_job,
        items: Records::from_vec(content.items.as_slice().to_vec(alloc)?),
    })
}

// Makes a commit, and answers the content that it makes.
fn commit<S: Store<MemDevice>, A: Abort>(
    rt: &A,
    alloc: Global,
    store: &mut S,
    device: &mut MemDevice,
    patch: &Patch,
) -> Result<Content, Fail>
    requires blksize { (S.identity store.old).blksize ≡ 2048 }
    requires pages { (S.identity store.old).pages ≡ 16 }
    requires told { IsTrue (state_of device.old).told }
    requires kept { IsKept (S.file store.old) (state_of device.old) (leaves_of device.old) }
    requires patch { IsPatch patch.now }
    ensures identity { S.identity store.new ≡ S.identity store.old }
    ensures told { IsTrue (state_of device.new).told }
    ensures kept { OnOk result (IsKept (S.file store.new) (state_of device.new) (leaves_of device.new)) }
{
    let next = store.content().patched(alloc, patch)?;
    assert!(rt; fit(store.content().items.as_slice()));
    assert!(rt; fit(next.items.as_slice()));
    store.commit(alloc, device, patch)?;
    Ok(next)
}

// After a stop at this call the old content is loaded, or the new one; after the last call the new one.
fn stop_at<S: Loads, A: Abort>(
    rt: &A,
    alloc: Global,
    device: &MemDevice,
    call: u64,
    old: &Content,
    new: &Content,
) -> Result<(), Fail> {
    assert!(rt; call <= device.calls());
    for choice in [0, 1, 7] {
        let mut left = device.after_stop(alloc, call, choice)?;
        let is_new = S::loads(alloc, &mut left, new)?;
        let is_old = call < device.calls() && S::loads(alloc, &mut left, old)?;
        assert!(rt; is_new || is_old, "after {call}, choice {choice}");
    }
    Ok(())
}

fn step<S: Store<MemDevice> + Loads, A: Abort>(
    rt: &A,
    alloc: Global,
    store: &mut S,
    device: &mut MemDevice,
    number: u8,
    rows: &[Row],
) -> Result<(), Fail>
    requires blksize { (S.identity store.old).blksize ≡ 2048 }
    requires pages { (S.identity store.old).pages ≡ 16 }
    requires told { IsTrue (state_of device.old).told }
    requires kept { IsKept (S.file store.old) (state_of device.old) (leaves_of device.old) }
    ensures identity { S.identity store.new ≡ S.identity store.old }
    ensures told { IsTrue (state_of device.new).told }
    ensures kept { OnOk result (IsKept (S.file store.new) (state_of device.new) (leaves_of device.new)) }
{
    let patch = patch_of(alloc, number, rows)?;
    assert!(rt; are_keys(patch.items.as_slice()));
    let old = copy_of(alloc, store.content())?;
    let new = commit(rt, alloc, store, device, &patch)?;
    assert!(rt; same(store.content(), &new), "step {number}");
    let calls = device.calls();
    for call in 0..calls {
        stop_at::<S, A>(rt, alloc, device, call, &old, &new)?;
    }
    stop_at::<S, A>(rt, alloc, device, calls, &old, &new)
}

// Rows come, change, grow, shrink and go, one and several at once; a page of 2,048 bytes has 2,000 of a value.
const STEPS: [&[Row]; 13] = [
    &[(6, 1, None), (6, 3, None), (255, 255, None)],
    &[(1, 1, Some(10))],
    &[(1, 1, Some(30))],
    &[(1, 1, Some(0))],
    &[(1, 1, Some(2001))],
    &[(2, 1, Some(6000)), (1, 2, Some(2000))],
    &[
        (1, 1, None),
        (1, 2, Some(1)),
        (2, 1, Some(3999)),
        (3, 9, Some(4000)),
    ],
    &[],
    &[(1, 2, None), (2, 1, None), (3, 9, None)],
    &[(5, 0, Some(32_000))],
    &[(5, 0, Some(31_999))],
    &[
        (5, 0, None),
        (6, 3, Some(1)),
        (6, 1, Some(2)),
        (6, 2, Some(2)),
        (7, 0, Some(0)),
    ],
    &[
        (6, 1, Some(2)),
        (6, 2, None),
        (7, 0, None),
        (255, 255, Some(5000)),
    ],
];

const COMMITS: u8 = 26;

// All steps, twice over, each on a device of its own.
fn run<S: Store<MemDevice> + Loads, A: Abort>(
    rt: &A,
    alloc: Global,
    store: &mut S,
    made: MemDevice,
) -> Result<(), Fail>
    requires blksize { (S.identity store.old).blksize ≡ 2048 }
    requires pages { (S.identity store.old).pages ≡ 16 }
    requires told { IsTrue (state_of made).told }
    requires kept { IsKept (S.file store.old) (state_of made) (leaves_of made) }
{
    let mut device = made;
    for number in 0..COMMITS {
        let bytes = Bytes::from_slice(alloc, device.holds())?;
        device = MemDevice::new(alloc, bytes, Vec::new(alloc))?;
        step(
            rt,
            alloc,
            store,
            &mut device,
            number,
            STEPS[number as usize % 13],
        )?;
    }
    Ok(())
}

#[test]
fn pages_keep_what_is_committed(rt: HostRuntime) -> Result<(), Fail> {
    let mut device = MemDevice::new(rt.alloc(), Bytes::new(rt.alloc()), Vec::new(rt.alloc()))?;
    let mut store = PagedStore::create(rt.alloc(), &mut device, &LIMITS, &[7; 32])?;
    run(&rt, rt.alloc(), &mut store, device)
}

#[test]
fn whole_images_keep_what_is_committed(rt: HostRuntime) -> Result<(), Fail> {
    let mut device = MemDevice::new(rt.alloc(), Bytes::new(rt.alloc()), Vec::new(rt.alloc()))?;
    let mut store = WholeStore::create(rt.alloc(), &mut device, &LIMITS, &[7; 32])?;
    run(&rt, rt.alloc(), &mut store, device)
}
