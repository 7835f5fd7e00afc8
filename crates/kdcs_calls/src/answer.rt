//! Answers of calls.
ghost use Rattle.std.specs.Prelude.{◌≡◌, ◌≤◌, IfSome, length};
ghost use Rattle.abstract_monitor.specs.{State.{OpenTransaction as Transaction}, Calls.{plain_reply, read_or, read_reply}};
ghost use Rattle.abstract_monitor.specs.declared.answer.Called.TheVariants as called;
ghost use Rattle.kdcs_calls.specs.Calling.{IsShort};

use abstract_monitor::Called;
use kd_base::Bytes;
use kdcs_types::{Code, Reply};

/// A code alone, with KCRLM 0.
pub(crate) fn replied(code: Code) -> Called
    ensures { result ≡ called.Replied (plain_reply code) }
{
    Called::Replied(Reply {
        code,
        length: 0,
        content: None,
    })
}

/// A content that was read into a field of `capacity` bytes: K02 where it is longer.
pub(crate) fn read_reply(capacity: u32, bytes: Bytes) -> Called
    requires { IsShort bytes }
    ensures { result ≡ called.Replied (read_reply capacity bytes) }
{
    let length = bytes.len();
    let code = if (capacity as usize) < length {
        Code::K02
    } else {
        Code::Done
    };
    Called::Replied(Reply {
        code,
        length: length as u32,
        content: Some(bytes),
    })
}

/// What was read, or this code where there is nothing.
pub(crate) fn read_or(code: Code, capacity: u32, found: Option<Bytes>) -> Called
    requires { IfSome found IsShort }
    ensures { (x : Transaction) → (x, result) ≡ read_or code x capacity found }
{
    match found {
        None => replied(code),
        Some(bytes) => read_reply(capacity, bytes),
    }
}
