//! A map in which places can be reserved. A `BTreeMap` may want memory for each new entry; here an
//! entry that finds none goes to a place that was reserved for it beside the map. Callers see one list
//! by rising key (`specs/Reserved.antt`), wherever an entry stands.

ghost use Rattle.std.specs.Prelude.{◌≡◌, ℕ, ◌+◌, ◌-◌, ◌≤◌, ◌<◌, ◌⊎◌, ◌||◌, ◌&&◌, Bool, [], IfOk, OnOk, IsOk, IsSome, IfSome, IfNone, length, true, None};
ghost use Rattle.std.specs.BTreeMap.{insert_entry, is_at};
ghost use Rattle.std.specs.BTreeMap.Range.{range_contains, entries_between, IsLeBy};
ghost use Rattle.std.specs.List.{list_any};
ghost use Rattle.std.specs.List.Sorted.{IsStrictlySortedBy};
ghost use Rattle.std.specs.Map.{keys_of, remove_entry};
ghost use Rattle.std.specs.declared.ops.Bound.TheVariants.{Included};
ghost use Rattle.lease_table.specs.Reserved.{at, HasRoom, IsExact};

use crate::{pair, part};
use std::alloc::{AllocError, Global};
use std::collections::BTreeMap;
use std::collections::btree_map::Range;
use std::marker::Model;

/// Entries by rising key. A place for an entry can be reserved, so that putting it in never wants
/// memory.
pub struct ReservedMap<K: Ord, V> {
    map: BTreeMap<K, V>,
    /// Entries that found no memory in the map, in no order.
    spare: Vec<(K, V)>,
}

impl<K: Ord + Drop, V: Drop> Drop for ReservedMap<K, V> {
    fn drop(self) {
        let ReservedMap { map, spare } = self;
        drop(map);
        drop(spare);
    }
}

impl<K: Ord, V> Model for ReservedMap<K, V> {
    ghost use Rattle.std.specs.Prelude.{◌≤◌, vec_len, vec_capacity};
    ghost use Rattle.lease_table.specs.Reserved.{Reserved, all_of, IsWhole};

    ghost Value = { Reserved K V };

    ghost view = { λ m. record { entries = all_of K.cmp m.map.entries m.spare.items; taken = vec_len m.spare; places = vec_capacity m.spare } };

    ghost invariant = { λ m. IsWhole K.cmp m.map.entries m.spare.items × (vec_len m.spare ≤ vec_capacity m.spare) };
}

impl<K: Ord + Copy + Drop, V: Copy + Drop> ReservedMap<K, V> {
    /// No entry. It takes no memory. Keys that compare equal have to be one.
    pub fn new(alloc: Global) -> ReservedMap<K, V>
        requires { IsExact K.cmp }
        ensures entries { result.entries ≡ [] }
        ensures taken { result.taken ≡ 0 }
    {
        ReservedMap {
            map: BTreeMap::new(alloc),
            spare: Vec::new(alloc),
        }
    }

    /// How many entries there are. No more stand in reserved places.
    pub fn len(&self) -> usize
        ensures len { result ≡ length self.now.entries }
        ensures taken { self.now.taken ≤ result }
        ensures sorted { IsStrictlySortedBy K.cmp (keys_of self.now.entries) }
    {
        pair::len(&self.map, &self.spare)
    }

    /// How many places there are.
    pub fn places(&self) -> usize
        ensures { result ≡ self.now.places }
    {
        self.spare.capacity()
    }

    /// In how many of them no entry stands.
    pub fn free(&self) -> usize
        ensures { result ≡ self.now.places - self.now.taken }
    {
        self.spare.capacity() - self.spare.len()
    }

    /// Reserves places for so many further entries. The one error is running out of memory; no
    /// entry changes.
    pub fn reserve(&mut self, count: usize) -> Result<(), AllocError>
        ensures ok { OnOk result (self.new.taken + count ≤ self.new.places) }
        ensures entries { self.new.entries ≡ self.old.entries }
        ensures taken { self.new.taken ≡ self.old.taken }
        ensures places { self.old.places ≤ self.new.places }
        ensures sure { count ≤ self.old.places - self.old.taken → IsOk result }
    {
        self.spare.reserve(count)
    }

    /// Reserves places for so many entries, and for so many further ones. The one error is running
    /// out of memory, as which a count past the type's end counts too; no entry changes.
    pub fn reserve_beyond(&mut self, all: usize, further: usize) -> Result<(), AllocError>
        ensures ok { OnOk result (all + further ≤ self.new.places) }
        ensures entries { self.new.entries ≡ self.old.entries }
        ensures taken { self.new.taken ≡ self.old.taken }
        ensures places { self.old.places ≤ self.new.places }
        ensures sure { all + further ≤ self.old.places → IsOk result }
    {
        pair::reserve_beyond(&mut self.spare, all, further)
    }

    /// The value under a key. It takes no memory.
    pub fn get(&self, key: K) -> Option<V>
        ensures value { result ≡ at K.cmp self.now.entries key }
        ensures sorted { IsStrictlySortedBy K.cmp (keys_of self.now.entries) }
    {
        pair::find(&self.map, &self.spare, &key)
    }

    /// Puts a value under a key, in place of the one that stands there. It never wants memory: the
    /// key has a value, or there is a place.
    pub fn put(&mut self, key: K, value: V)
        requires { HasRoom K.cmp self.old key }
        ensures entries { self.new.entries ≡ insert_entry K.cmp self.old.entries key value }
        ensures taken { self.new.taken ≤ self.old.taken + 1 }
        ensures same { IsSome (at K.cmp self.old.entries key) → self.new.taken ≤ self.old.taken }
        ensures places { self.old.places ≤ self.new.places }
    {
        pair::put(&mut self.map, &mut self.spare, key, value);
    }

    /// Takes out the value under a key. It takes no memory.
    pub fn remove(&mut self, key: K) -> Option<V>
        ensures value { result ≡ at K.cmp self.old.entries key }
        ensures entries { self.new.entries ≡ remove_entry (is_at (K.cmp key)) self.old.entries }
        ensures taken { self.new.taken ≤ self.old.taken }
        ensures places { self.new.places ≡ self.old.places }
    {
        pair::take_out(&mut self.map, &mut self.spare, &key)
    }

    /// A key from the first up to the last that has a value, if there is one. It takes no memory.
    pub fn one_between(&self, first: K, last: K) -> Option<K>
        requires { IsLeBy K.cmp first last }
        ensures some { IfSome result (λ key. (range_contains K.cmp (Included first) (Included last) key ≡ true) × IsSome (at K.cmp self.now.entries key)) }
        ensures none { IfNone result ((key : K) → range_contains K.cmp (Included first) (Included last) key ≡ true → at K.cmp self.now.entries key ≡ None) }
    {
        pair::one_within(&self.map, &self.spare, first, last)
    }

    /// The entries from the first key up to the last, by rising key. The one error is running out
    /// of memory.
    pub fn between(&self, alloc: Global, first: K, last: K) -> Result<Vec<(K, V)>, AllocError>
        requires { IsLeBy K.cmp first last }
        ensures { IfOk result (λ entries. entries.items ≡ entries_between K.cmp (Included first) (Included last) self.now.entries) }
    {
        part::between(alloc, &self.map, &self.spare, first, last)
    }

    /// The same in two parts, in no order: those in the map, and all that stand in reserved places.
    /// It takes no memory.
    pub fn parts(&self, first: K, last: K) -> (Range<'_, K, V>, &[(K, V)])
        requires { IsLeBy K.cmp first last }
        ensures { (t : K × V → Bool) → list_any t
            (entries_between K.cmp (Included first) (Included last) self.now.entries)
            ≡ (list_any (λ e. range_contains K.cmp (Included first) (Included last) e.0
            && t e) result.1.now || list_any t result.0) }
    {
        (self.map.range(first..=last), self.spare.as_slice())
    }
}
