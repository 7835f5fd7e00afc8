//! Whether transactions run one at a time.
ghost use Rattle.std.specs.Prelude.{◌≡◌, ◌&&◌, nat_le};

/// Transactions ran one at a time before a step, and of so many that have begun and are open after it there is at most one.
pub fn stays_serial(before: bool, transactions: usize) -> bool
    ensures { result ≡ (before && nat_le transactions 1) }
{
    before && transactions <= 1
}
