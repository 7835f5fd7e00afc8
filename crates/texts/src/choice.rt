//! The first of several tests.
ghost use Rattle.std.specs.Prelude.{◌≡◌};
ghost use Rattle.kd_base.specs.FirstFaults.{first_true};

/// What is beside the first test that is true.
pub fn first_true<T: Copy>(tests: &[(bool, T)]) -> Option<T>
    ensures { result ≡ first_true tests.now }
{
    for test in tests {
        if test.0 {
            return Some(test.1);
        }
    }
    None
}
