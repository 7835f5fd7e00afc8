//! kd_host: a real file, the files of the current folder, and a copy of one of them.

use kd_device::{Device, Room};
use kd_host::{FileDevice, FolderRoom, copy_to_new};
use std::fs;
use std::test::Fail;

const FILE: &[u8] = b"low_tests_device.tmp";

// Writes with a gap, and a sync.
fn write<D: Device>(device: &mut D) -> Result<(), Fail> {
    device.reserve(4, 100, 100)?;
    device.attach(FILE)?;
    device.write_at(0, b"abc")?;
    device.write_at(5, b"z")?;
    device.sync()?;
    Ok(())
}

// The front of what is there, and how many bytes a read of 8 bytes gives.
fn read<D: Device>(device: &mut D) -> Result<([u8; 8], usize), Fail> {
    device.reserve(1, 100, 0)?;
    device.attach(FILE)?;
    let mut bytes = [b'-'; 8];
    let count = device.read_at(0, &mut bytes)?;
    Ok((bytes, count))
}

#[test]
fn a_file_keeps_what_was_written(rt: HostRuntime) -> Result<(), Fail> {
    assert!(rt; FileDevice::new(&rt, "utm").size().is_err());
    write(&mut FileDevice::new(&rt, "utm"))?;
    let found = read(&mut FileDevice::new(&rt, "utm"))?;
    assert!(rt; found == (*b"abc\0\0z--", 6));
    fs::remove_file(&rt, "low_tests_device.tmp")?;
    Ok(())
}

#[test]
fn a_file_has_one_device(rt: HostRuntime) -> Result<(), Fail> {
    let name = b"low_tests_lock.tmp";
    let mut first = FileDevice::new(&rt, "utm");
    let mut second = FileDevice::new(&rt, "utm");
    first.reserve(2, 100, 0)?;
    second.reserve(2, 100, 0)?;
    first.attach(name)?;
    assert!(rt; second.attach(name).is_err());
    first.attach(name)?;
    drop(first);
    second.attach(name)?;
    fs::remove_file(&rt, "low_tests_lock.tmp")?;
    Ok(())
}

#[test]
fn a_folder_gives_its_texts(rt: HostRuntime) -> Result<(), Fail> {
    let name = Vec::from_slice(rt.alloc(), b"low_tests_room.tmp")?;
    fs::write(&rt, "low_tests_room.tmp", b"abcdef")?;
    let text = FolderRoom::new(&rt, "utm").read(rt.alloc(), &name, 3)?;
    assert!(rt; text.as_slice() == b"abcd".as_slice());
    fs::remove_file(&rt, "low_tests_room.tmp")?;
    assert!(rt;
        FolderRoom::new(&rt, "utm")
            .read(rt.alloc(), &name, 3)
            .is_err()
    );
    Ok(())
}

#[test]
fn a_file_is_made_by_the_first_write(rt: HostRuntime) -> Result<(), Fail> {
    let mut device = FileDevice::making_late(&rt, "utm");
    device.reserve(2, 100, 100)?;
    device.attach(b"low_tests_late.tmp")?;
    assert!(rt; device.size()? == 0);
    assert!(rt; fs::open(&rt, "low_tests_late.tmp").is_err());
    device.write_at(0, b"abc")?;
    assert!(rt; fs::read_to_string(&rt, "low_tests_late.tmp")?.as_str() == "abc");
    fs::remove_file(&rt, "low_tests_late.tmp")?;
    Ok(())
}

#[test]
fn a_copy_is_made_once(rt: HostRuntime) -> Result<(), Fail> {
    let (from, to) = ("low_tests_from.tmp", "low_tests_to.tmp");
    assert!(rt; copy_to_new(&rt, "utm", from, to).is_err());
    assert!(rt; fs::open(&rt, to).is_err());
    fs::write(&rt, from, b"abc")?;
    copy_to_new(&rt, "utm", from, to)?;
    fs::write(&rt, from, b"other")?;
    assert!(rt; copy_to_new(&rt, "utm", from, to).is_err());
    assert!(rt; fs::read_to_string(&rt, to)?.as_str() == "abc");
    fs::remove_file(&rt, from)?;
    fs::remove_file(&rt, to)?;
    Ok(())
}
