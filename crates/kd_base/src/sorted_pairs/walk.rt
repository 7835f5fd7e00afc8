//! Pairs, lent one after another.
ghost use Rattle.std.specs.{Prelude.{◌≡◌, ◌++◌, length}, Iterator.{at_most}, Map.Iter.{TakesFirst, deref_pair}};

use std::collections::btree_map::Range;
use std::marker::Model;

/// Pairs of an `OrderedMap`, in ascending order of their keys. Contracts see the list of those that are left.
#[derive(Drop)]
pub struct Pairs<'a, K, V> {
    few: &'a [(K, V)],
    many: Range<'a, K, V>,
}

impl<'a, K, V> Model for Pairs<'a, K, V> {
    ghost use Rattle.std.specs.Prelude.{List, ◌++◌};

    ghost Value = { List (K × V) };

    ghost view = { λ p. p.few.now ++ p.many };
}

impl<'a, K, V> Pairs<'a, K, V> {
    pub(super) fn new(few: &'a [(K, V)], many: Range<'a, K, V>) -> Pairs<'a, K, V>
        ensures { result ≡ few.now ++ many.entry }
    {
        Pairs { few, many }
    }
}

impl<'a, K, V> Iterator for Pairs<'a, K, V> {
    type Item = (&'a K, &'a V);

    ghost next_gives = { TakesFirst deref_pair };

    ghost remaining = { λ pairs. at_most (length pairs) };

    fn next(&mut self) -> Option<(&'a K, &'a V)> {
        match self.few.split_first() {
            Some((pair, rest)) => {
                self.few = rest;
                Some((&pair.0, &pair.1))
            }
            None => self.many.next(),
        }
    }
}
