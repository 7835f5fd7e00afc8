//! Numbers by keys: which is the first that a key has.
ghost use Rattle.std.specs.Ordering.{nat_cmp};
ghost use Rattle.service_ends.specs.Index.{IsLeast, is_marked};

use kd_base::sorted_pairs::OrderedMap;

/// The numbers that keys have, in the order of the keys, and for one key in that of the numbers.
pub(crate) type Index<K> = OrderedMap<(K, u64), ()>;

/// The least number that the key has. It costs in proportion to the logarithm of how many there are.
pub(crate) fn first_of<K: Ord + Copy>(index: &Index<K>, key: &K) -> Option<u64>
    ensures { IsLeast (is_marked K.cmp index.now key.now) result }
{
    let Some(((found, number), ())) = index.from(&(*key, 0)).next() else {
        return None;
    };
    if found == key { Some(*number) } else { None }
}
