//! The words for causes and refused sign-ons. No call takes memory.
ghost use Rattle.std.specs.Prelude.{◌≡◌};
ghost use Rattle.abstract_monitor.specs.{Commands.{fault_text}, Lines.{cause_text}};

use abstract_monitor::SignFault;
use kdcs_types::Cause;

/// The name of a cause in a dump line: `E01` to `E12`, and `ER` for PEND ER.
pub fn cause_text(cause: Cause) -> &'static [u8]
    ensures { result.now ≡ cause_text cause }
{
    match cause {
        Cause::E01 => b"E01",
        Cause::E02 => b"E02",
        Cause::E03 => b"E03",
        Cause::E04 => b"E04",
        Cause::E05 => b"E05",
        Cause::E06 => b"E06",
        Cause::E07 => b"E07",
        Cause::E08 => b"E08",
        Cause::E09 => b"E09",
        Cause::E10 => b"E10",
        Cause::E11 => b"E11",
        Cause::E12 => b"E12",
        Cause::Er => b"ER",
    }
}

/// Why a KDCSIGN is refused, as the text of a `SYS` line.
pub fn fault_text(fault: SignFault) -> &'static [u8]
    ensures { result.now ≡ fault_text fault }
{
    match fault {
        SignFault::BadForm => b"BAD SIGN ON",
        SignFault::UnknownUser => b"UNKNOWN USER",
        SignFault::WrongPassword => b"WRONG PASSWORD",
        SignFault::InUse => b"USER IS SIGNED ON",
    }
}
