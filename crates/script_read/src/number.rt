//! Numbers of digits.
ghost use Rattle.std.specs.{Prelude.{◌≡◌, ◌≤◌, ◌<◌, length, IfOk}, List.{list_all}};
ghost use Rattle.kd_base.specs.Text.{is_digit};
ghost use Rattle.application_types.specs.Statements.{IsWithin};
ghost use Rattle.script_read.specs.{Script.{numbered}, Reading.{line_result, found_of}};

use crate::fault::ScriptFault;
use kd_base::decimal_of;

fn are_digits(bytes: &[u8]) -> bool
    ensures { result ≡ list_all is_digit bytes.now }
{
    bytes.iter().all(|b| b'0' <= *b && *b <= b'9')
}

// The number from `low` to `high` that a word on this line stands for.
pub(crate) fn number_of(line: u32, low: u64, high: u64, word: &[u8]) -> Result<u64, ScriptFault>
    requires { 0 < length word.now }
    ensures said { found_of result ≡ line_result line (numbered low high word.now) }
    ensures within { IfOk result (IsWithin low high) }
{
    if !are_digits(word) {
        return Err(ScriptFault::BadLine(line));
    }
    let Some(value) = decimal_of(word).filter(|n| low <= *n && *n <= high) else {
        return Err(ScriptFault::OutOfRange(line));
    };
    Ok(value)
}
