//! The standard input as typed lines.
ghost use Rattle.std.specs.Prelude.{◌≡◌, None, false};
ghost use Rattle.std.proofs.lemmas.Bool.{false≢true};
ghost use Rattle.kd_device.specs.Device.{Rose};
ghost use Rattle.kd_device.specs.declared.error.DeviceError.TheVariants.{Failed};

use device_acts::Keeper;
use kd_device::DeviceError;
use live_run::Typing;
use std::alloc::Global;
use std::io;
use std::io::{BufRead, ErrorKind, Read};

/// What is written where somebody types, before each line. Nothing of it goes to the standard output.
const PROMPT: &str = "> ";

/// The lines of an input. It tells nothing of them. A line is waited for when it is asked for, and no further one is.
#[derive(Drop)]
pub(crate) struct StandardTyping<'a, R: Eprint, I: BufRead + Drop> {
    rt: &'a R,
    input: I,
    is_prompted: bool,
    faults: u64,
}

impl<'a, R: Eprint, I: BufRead + Drop> StandardTyping<'a, R, I> {
    /// The lines of this input. A prompt is given where somebody types.
    pub(crate) fn new(rt: &'a R, input: I, is_prompted: bool) -> StandardTyping<'a, R, I> {
        StandardTyping {
            rt,
            input,
            is_prompted,
            faults: 0,
        }
    }
}

// A line without its end, which is LF, or CR and LF.
fn without_end(line: &mut Vec<u8>) {
    if line.last() == Some(&b'\n') {
        line.pop();
        if line.last() == Some(&b'\r') {
            line.pop();
        }
    }
}

// The next line, up to one byte past the limit; what more it has is passed over.
fn read_line<I: BufRead>(input: &mut I, alloc: Global, limit: u64) -> io::Result<Option<Vec<u8>>> {
    let most = limit.saturating_add(3); // one byte past the limit, CR and LF
    let mut line = Vec::new(alloc);
    let read = (&mut *input).take(most).read_until(b'\n', &mut line)?;
    if read == 0 {
        return Ok(None);
    }
    if read as u64 == most && line.last() != Some(&b'\n') {
        input.skip_until(b'\n')?;
    }
    without_end(&mut line);
    line.truncate(limit.saturating_add(1) as usize);
    Ok(Some(line))
}

// What a failed read is told as. Where it is not want of memory, the count of faults rises, and a line on standard error
// says why.
fn told<R: Eprint>(rt: &R, error: io::Error, faults: &mut u64) -> DeviceError
    ensures failed { result ≡ Failed → Rose faults.old faults.new }
    ensures fine { (result ≡ Failed → ⊥) → faults.new ≡ faults.old }
{
    if error.kind() == ErrorKind::OutOfMemory {
        return DeviceError::Memory;
    }
    *faults = faults.saturating_add(1);
    let _ = eprintln!(rt; "live: standard input: read: {error}");
    DeviceError::Failed
}

impl<'a, R: Eprint, I: BufRead + Drop> Typing for StandardTyping<'a, R, I> {
    ghost typing = { λ t. record { told = false; types = λ n seen. None; typed = 0; faults = t.faults } };

    fn line<K: Keeper>(
        &mut self,
        alloc: Global,
        _keeper: &K,
        limit: u64,
    ) -> Result<Option<Vec<u8>>, DeviceError> {
        if self.is_prompted {
            let _ = eprint!(self.rt; "{PROMPT}");
        }
        match read_line(&mut self.input, alloc, limit) {
            Ok(line) => Ok(line),
            Err(error) => Err(told(self.rt, error, &mut self.faults)),
        }
    }
}
