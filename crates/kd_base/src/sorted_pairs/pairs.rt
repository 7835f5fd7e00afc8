//! Pairs in a `Vec`, found by binary search.
ghost use Rattle.std.specs.{Prelude.{◌≡◌, ◌++◌, ◌-◌, ◌≤◌, [], IsTrue, IfNone, IfSome, ◌<◌, OnOk, OnErr, Ok, Some, is_some, length, option_copied}, FinMap.{find, put, is_sorted}, Option.{option_copied_mut}};
ghost use Rattle.std.specs.{List.{IsAllAdjacentAnswer}, List.Sorted.{IsPermutation}, Ordering.{is_lt}, Borrow.{sem}};
ghost use Rattle.kd_base.specs.{Lends.{lends_value, lends_found}, Places.{IsPlace, from_key, times, without}};

use crate::OutOfMemory;
use std::alloc::Global;
use std::collections::BTreeMap;
use std::marker::Model;

/// Pairs of keys and values, in ascending order of the keys without repeats. Contracts see the list of pairs.
#[derive(Drop)]
pub struct SortedPairs<K: Ord, V> {
    pairs: Vec<(K, V)>,
}

impl<K: Ord, V> Model for SortedPairs<K, V> {
    ghost use Rattle.std.specs.{Prelude.{List, IsTrue}, FinMap.{is_sorted}};

    ghost Value = { List (K × V) };

    ghost view = { λ p. p.pairs.items };

    ghost invariant = { λ p. IsTrue (is_sorted K.cmp p.pairs.items) };
}

/// Where the pair with this key is, or else where it would go, in time as the logarithm of their number. Where the pairs
/// are in no order, it tells nothing.
pub fn place_of<K: Ord + Copy, V>(pairs: &[(K, V)], key: &K) -> Result<usize, usize>
    ensures { IsPlace K.cmp key.now pairs.now result }
{
    pairs.binary_search_by_key(key, |pair| pair.0)
}

/// Whether each key is less than the next one.
fn ascend<K: Ord + Copy, V>(pairs: &[(K, V)]) -> bool
    ensures { IsAllAdjacentAnswer (λ x y b. b ≡ is_lt (K.cmp x.0 y.0)) pairs.now result }
{
    pairs.is_sorted_by(|first, second| first.0 < second.0)
}

impl<K: Ord + Copy, V: Drop> SortedPairs<K, V> {
    pub fn new(alloc: Global) -> SortedPairs<K, V>
        ensures { result ≡ [] }
    {
        SortedPairs {
            pairs: Vec::new(alloc),
        }
    }

    /// The pairs of a `Vec` that is in order, which takes no memory.
    pub fn from_vec(pairs: Vec<(K, V)>) -> SortedPairs<K, V>
        requires { IsTrue (is_sorted K.cmp pairs.items) }
        ensures { result ≡ pairs.items }
    {
        SortedPairs { pairs }
    }

    /// The pairs of a `Vec` put in order, unless a key is there twice. It takes no memory, and time as a sort does.
    pub fn from_pairs(mut pairs: Vec<(K, V)>) -> Option<SortedPairs<K, V>>
        ensures pairs { IfSome result (λ p. IsPermutation pairs.items p) }
        ensures ascending { IfSome result (λ p. IsTrue (is_sorted K.cmp p)) }
        ensures twice { IfNone result ((k : K) × 1 < times K.cmp k pairs.items) }
    {
        pairs.sort_unstable_by_key(|pair| pair.0);
        if !ascend(pairs.as_slice()) {
            return None;
        }
        Some(SortedPairs { pairs })
    }

    /// The `Vec` of these pairs, which takes no memory.
    pub fn into_vec(self) -> Vec<(K, V)>
        ensures pairs { result.items ≡ self }
        ensures ascending { IsTrue (is_sorted K.cmp self) }
    {
        self.pairs
    }

    /// The pairs in ascending order of their keys.
    pub fn as_slice(&self) -> &[(K, V)]
        ensures pairs { result.now ≡ self.now }
        ensures ascending { IsTrue (is_sorted K.cmp self.now) }
    {
        self.pairs.as_slice()
    }

    pub fn len(&self) -> usize
        ensures { result ≡ length self.now }
    {
        self.pairs.len()
    }

    /// The value of a key.
    pub fn get(&self, key: &K) -> Option<&V>
        ensures value { option_copied result ≡ find K.cmp key.now self.now }
        ensures ascending { IsTrue (is_sorted K.cmp self.now) }
    {
        match place_of(self.pairs.as_slice(), key) {
            Ok(at) => Some(&self.pairs[at].1),
            Err(_) => None,
        }
    }

    /// Whether the key has a value.
    pub fn contains_key(&self, key: &K) -> bool
        ensures { result ≡ is_some (find K.cmp key.now self.now) }
    {
        self.get(key).is_some()
    }

    /// Gives the key this value, in place of the one that it has. On an error nothing changes.
    pub fn put(&mut self, key: K, value: V) -> Result<(), OutOfMemory>
        ensures ok { OnOk result (self.new ≡ put K.cmp key value self.old) }
        ensures err { OnErr result (self.new ≡ self.old) }
    {
        match place_of(self.pairs.as_slice(), &key) {
            Ok(at) => {
                self.pairs[at].1 = value;
                Ok(())
            }
            Err(at) => Ok(self.pairs.insert(at, (key, value))?),
        }
    }

    fn place(&self, key: &K) -> Result<usize, usize>
        ensures place { IsPlace K.cmp key.now self.now result }
        ensures ascending { IsTrue (is_sorted K.cmp self.now) }
    {
        place_of(self.pairs.as_slice(), key)
    }

    fn value_at(&mut self, key: &K, at: usize) -> &mut V
        requires { IsPlace K.cmp key.now self.old (Ok at) }
        ensures* writes_back { sem 𝓛 (lends_value K.row V.row K.Ord self.entry key.now result) }
        ensures value { Some result.now ≡ find K.cmp key.now self.old }
    {
        &mut self.pairs[at].1
    }

    /// The value of a key, for writing.
    pub fn get_mut(&mut self, key: &K) -> Option<&mut V>
        ensures* writes_back { sem 𝓛 (lends_found K.row V.row K.Ord self.entry key.now result) }
        ensures value { option_copied_mut result ≡ find K.cmp key.now self.old }
    {
        match self.place(key) {
            Ok(at) => Some(self.value_at(key, at)),
            Err(_) => None,
        }
    }

    /// The pairs whose keys are not less than this one. It looks at those before them.
    pub(super) fn from(&self, key: &K) -> &[(K, V)]
        ensures { result.now ≡ from_key K.cmp key.now self.now }
    {
        let mut rest = self.pairs.as_slice();
        while let Some((first, more)) = rest.split_first() {
            if first.0 >= *key {
                return rest;
            }
            rest = more;
        }
        rest
    }

    /// Moves the last pair to a tree that has those behind it. On an error nothing changes.
    pub(super) fn move_last(&mut self, behind: &mut BTreeMap<K, V>) -> Result<(), OutOfMemory>
        requires { IsTrue (is_sorted K.cmp (self.old ++ behind.old.entries)) }
        ensures same { self.new ++ behind.new.entries ≡ self.old ++ behind.old.entries }
        ensures less { OnOk result (length self.new ≡ length self.old - 1) }
        ensures small { length self.new ≤ length self.old }
    {
        let Some(pair) = self.pairs.pop() else {
            return Ok(());
        };
        if let Err(refused) = behind.insert(pair.0, pair.1) {
            // there is room for it where it was
            self.pairs.push(refused.value)?;
            return Err(OutOfMemory);
        }
        Ok(())
    }

    /// Takes the key and its value out, and answers the value. It takes no memory.
    pub fn remove(&mut self, key: &K) -> Option<V>
        ensures value { result ≡ find K.cmp key.now self.old }
        ensures left { self.new ≡ without K.cmp key.now self.old }
        ensures absent { IfNone result (self.new ≡ self.old) }
    {
        match place_of(self.pairs.as_slice(), key) {
            Ok(at) => Some(self.pairs.remove(at).1),
            Err(_) => None,
        }
    }
}
