//! Pairs in a list or a tree.
ghost use Rattle.std.specs.{Prelude.{◌≡◌, ◌++◌, ◌-◌, ◌≤◌, [], IsTrue, IfNone, OnOk, OnErr, is_some, length, option_copied, option_map, slice_get}, FinMap.{find, put, is_sorted}, Option.{option_copied_mut}};
ghost use Rattle.std.specs.{Borrow.{sem}, Map.Iter.{deref_pair}};
ghost use Rattle.kd_base.specs.{LendsTree.{lends_in_tree}, Places.{from_key, without}};

use crate::OutOfMemory;
use crate::sorted_pairs::pairs::SortedPairs;
use crate::sorted_pairs::walk::Pairs;
use std::alloc::Global;
use std::collections::BTreeMap;
use std::collections::btree_map::Range;
use std::marker::Model;

// A node of a tree has room for fifteen pairs, and costs more to make than a list of eight.
const FEW: usize = 8;

/// Pairs of keys and values, in ascending order of the keys without repeats. Contracts see the list of pairs. Each call
/// but `iter` and `from` costs in proportion to the logarithm of their number; what these two give, to what is taken.
///
/// Up to 8 pairs stand in a list, whose memory stays until the map is dropped. A `put` where there are 8 moves them all
/// to a tree, where pairs stay until it is empty.
#[derive(Drop)]
pub struct OrderedMap<K: Ord, V> {
    // the pairs before those of the tree: none if it has any, but where memory ran out while they were moved
    few: SortedPairs<K, V>,
    many: BTreeMap<K, V>,
}

impl<K: Ord, V> Model for OrderedMap<K, V> {
    ghost use Rattle.std.specs.{Prelude.{List, ◌++◌}};
    ghost use Rattle.kd_base.specs.Splits.{IsSplit};

    ghost Value = { List (K × V) };

    ghost view = { λ m. m.few ++ m.many.entries };

    ghost invariant = { λ m. IsSplit K.cmp m.few m.many.entries };
}

// Moves all pairs of the list to a tree that has those behind them, the last one first. On an error some were moved.
fn plant<K: Ord + Copy, V: Drop>(
    few: &mut SortedPairs<K, V>,
    many: &mut BTreeMap<K, V>,
) -> Result<(), OutOfMemory>
    requires { IsTrue (is_sorted K.cmp (few.old ++ many.old.entries)) }
    ensures same { few.new ++ many.new.entries ≡ few.old ++ many.old.entries }
    ensures all { OnOk result (few.new ≡ []) }
    ensures small { length few.new ≤ length few.old }
{
    while few.len() > 0 {
        few.move_last(many)?;
    }
    Ok(())
}

// The pairs of a tree whose keys are not less than this one.
fn from_in<'a, K: Ord + Copy, V: Drop>(tree: &'a BTreeMap<K, V>, key: &K) -> Range<'a, K, V>
    ensures { result ≡ from_key K.cmp key.now tree.now.entries }
{
    tree.range(*key..)
}

impl<K: Ord + Copy, V: Drop> OrderedMap<K, V> {
    /// No pairs. It takes no memory.
    pub fn new(alloc: Global) -> OrderedMap<K, V>
        ensures { result ≡ [] }
    {
        OrderedMap {
            few: SortedPairs::new(alloc),
            many: BTreeMap::new(alloc),
        }
    }

    pub fn len(&self) -> usize
        ensures { result ≡ length self.now }
    {
        self.few.len() + self.many.len()
    }

    /// The value of a key.
    pub fn get(&self, key: &K) -> Option<&V>
        ensures value { option_copied result ≡ find K.cmp key.now self.now }
        ensures ascending { IsTrue (is_sorted K.cmp self.now) }
    {
        match self.few.get(key) {
            Some(value) => Some(value),
            None => self.many.get(key),
        }
    }

    /// Whether the key has a value.
    pub fn contains_key(&self, key: &K) -> bool
        ensures { result ≡ is_some (find K.cmp key.now self.now) }
    {
        self.get(key).is_some()
    }

    /// Gives the key this value, in place of the one that it has. On an error nothing changes.
    pub fn put(&mut self, key: K, value: V) -> Result<(), OutOfMemory>
        ensures ok { OnOk result (self.new ≡ put K.cmp key value self.old) }
        ensures err { OnErr result (self.new ≡ self.old) }
        ensures ascending { IsTrue (is_sorted K.cmp self.new) }
    {
        if self.many.is_empty() && self.few.len() < FEW {
            return self.few.put(key, value);
        }
        plant(&mut self.few, &mut self.many)?;
        self.many.insert(key, value)?;
        Ok(())
    }

    /// The value of a key, for writing.
    pub fn get_mut(&mut self, key: &K) -> Option<&mut V>
        ensures* writes_back { sem 𝓛 (lends_in_tree K.row V.row K.Ord self.entry key.now result) }
        ensures value { option_copied_mut result ≡ find K.cmp key.now self.old }
    {
        if self.many.is_empty() {
            match self.few.get_mut(key) {
                Some(value) => Some(value),
                None => None,
            }
        } else if self.few.contains_key(key) {
            match self.few.get_mut(key) {
                Some(value) => Some(value),
                None => None,
            }
        } else {
            match self.many.get_mut(key) {
                Some(value) => Some(value),
                None => None,
            }
        }
    }

    /// Takes the key and its value out, and answers the value. It takes no memory.
    pub fn remove(&mut self, key: &K) -> Option<V>
        ensures value { result ≡ find K.cmp key.now self.old }
        ensures left { self.new ≡ without K.cmp key.now self.old }
        ensures absent { IfNone result (self.new ≡ self.old) }
    {
        match self.few.remove(key) {
            Some(value) => Some(value),
            None => self.many.remove(key),
        }
    }

    /// The pair with the greatest key.
    pub fn last(&self) -> Option<(&K, &V)>
        ensures pair { option_map deref_pair result ≡ slice_get self.now (length self.now - 1) }
        ensures ascending { IsTrue (is_sorted K.cmp self.now) }
    {
        if let Some(pair) = self.many.last_key_value() {
            return Some(pair);
        }
        let pair = self.few.as_slice().last()?;
        Some((&pair.0, &pair.1))
    }

    /// The pairs in ascending order of their keys.
    pub fn iter(&self) -> Pairs<'_, K, V>
        ensures pairs { result ≡ self.now }
        ensures ascending { IsTrue (is_sorted K.cmp self.now) }
    {
        Pairs::new(self.few.as_slice(), self.many.range(..))
    }

    /// The pairs whose keys are not less than this one, in ascending order of their keys.
    pub fn from(&self, key: &K) -> Pairs<'_, K, V>
        ensures pairs { result ≡ from_key K.cmp key.now self.now }
        ensures ascending { IsTrue (is_sorted K.cmp self.now) }
    {
        Pairs::new(self.few.from(key), from_in(&self.many, key))
    }
}
