//! Decisions on plain values.
ghost use Rattle.std.specs.Prelude.{◌≡◌, ◌<◌, ◌+◌, ◌^◌, true, IfSome};
ghost use Rattle.carry_steps.specs.Deciding.{is_asked, next_sequence, shuts_second};

/// The sequence of the copy that is made, if one is: the next one, or 0 where there was no copy.
pub fn next_sequence(double: bool, sequence: Option<u64>) -> Option<u64>
    requires { double ≡ true → IfSome sequence (λ n. n + 1 < 2 ^ 64) }
    ensures { result ≡ next_sequence double sequence }
{
    if !double {
        return None;
    }
    match sequence {
        None => Some(0),
        Some(last) => Some(last + 1),
    }
}

/// Whether there are two copies, where two are asked for, and one file, where one is.
pub fn is_asked(double: bool, two: bool) -> bool
    ensures { result ≡ is_asked double two }
{
    double == two
}

/// Whether a second copy is shut: there is one, with this sequence, and one file is asked for.
pub fn shuts_second(double: bool, sequence: Option<u64>) -> bool
    ensures { result ≡ shuts_second double sequence }
{
    match sequence {
        None => false,
        Some(_) => !double,
    }
}
