//! The order of faults.
ghost use Rattle.std.specs.Prelude.{◌≡◌};
ghost use Rattle.application_check.specs.{FitFaults.{comes_first}, Finding.{earlier}};

use crate::unit_check::fault::FitFault;

impl FitFault {
    fn comes_first(&self, other: &FitFault) -> bool
        ensures { result ≡ comes_first self.now other.now }
    {
        let (line, other_line) = (self.line(), other.line());
        line < other_line || (line == other_line && self.number() <= other.number())
    }
}

/// The first of two faults that were found.
pub(crate) fn earlier(a: Option<FitFault>, b: Option<FitFault>) -> Option<FitFault>
    ensures { result ≡ earlier a b }
{
    match (a, b) {
        (None, found) | (found, None) => found,
        (Some(a), Some(b)) => Some(if a.comes_first(&b) { a } else { b }),
    }
}
