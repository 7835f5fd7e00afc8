//! kd_device: what a stop leaves, byte by byte.

use kd_base::Bytes;
use kd_device::{Device, MemDevice};
use std::alloc::Global;
use std::test::Fail;

// A device over `abcdefgh` with a write that is synced, one past the end, a piece, and one more write.
fn worked(alloc: Global) -> Result<MemDevice, Fail> {
    let start = Bytes::from_slice(alloc, b"abcdefgh")?;
    let mut device = MemDevice::new(alloc, start, Vec::new(alloc))?;
    device.reserve(5, 10, 10)?;
    device.write_at(2, b"XY")?;
    device.sync()?;
    device.write_at(6, b"1234")?;
    device.emit(b"hi")?;
    device.write_at(0, b"--")?;
    Ok(device)
}

#[test]
fn a_stop_leaves_one_of_the_images(rt: HostRuntime) -> Result<(), Fail> {
    let device = worked(rt.alloc())?;
    let table: [(u64, u64, &[u8]); 9] = [
        (0, 1, b"abcdefgh"),
        (1, 0, b"abcdefgh"),
        (1, 1, b"abXYefgh"),
        (1, 2, b"abXdefgh"),
        (4, 2, b"abXYef12"),
        (5, 0, b"abXYefgh"),
        (5, 1, b"--XYef1234"),
        (5, 9, b"abXYef1234"),
        (5, 81, b"--XYefgh"),
    ];
    for (call, choice, want) in table {
        assert!(rt; call <= device.calls());
        let left = device.after_stop(rt.alloc(), call, choice)?;
        assert!(rt; left.holds() == want, "after {call}, choice {choice}");
    }
    Ok(())
}
