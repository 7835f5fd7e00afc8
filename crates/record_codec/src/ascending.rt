//! Whether keys ascend.
ghost use Rattle.std.specs.{Prelude.{◌≡◌}, FinMap.{is_sorted}};

/// Whether the keys ascend without repeats. It takes no memory.
pub fn ascend<K: Ord, V>(pairs: &[(K, V)]) -> bool
    ensures { result ≡ is_sorted K.cmp pairs.now }
{
    for i in 1..pairs.len() {
        if !pairs[i - 1].0.cmp(&pairs[i].0).is_lt() {
            return false;
        }
    }
    true
}
