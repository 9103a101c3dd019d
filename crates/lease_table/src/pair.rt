//! What is done to a map and the reserved places beside it (`all_of` in `specs/Reserved.antt`).

ghost use Rattle.std.specs.Prelude.{◌≡◌, ◌≤◌, ◌<◌, ◌+◌, ◌⊎◌, IsSome, IfSome, IfNone, OnOk, IsOk, length, vec_len, vec_capacity, true, None};
ghost use Rattle.std.specs.BTreeMap.{insert_entry, is_at};
ghost use Rattle.std.specs.BTreeMap.Range.{range_contains, IsLeBy};
ghost use Rattle.std.specs.Map.{remove_entry};
ghost use Rattle.std.specs.declared.ops.Bound.TheVariants.{Included};
ghost use Rattle.lease_table.specs.Reserved.{at, all_of, IsWhole};

use crate::spare;
use std::alloc::AllocError;
use std::collections::BTreeMap;

/// The value under a key.
pub fn find<K: Ord, V: Copy>(map: &BTreeMap<K, V>, spare: &Vec<(K, V)>, key: &K) -> Option<V>
    requires { IsWhole K.cmp map.now.entries spare.now.items }
    ensures { result ≡ at K.cmp (all_of K.cmp map.now.entries spare.now.items) key.now }
{
    match spare::find(spare, key) {
        Some(value) => Some(value),
        None => map.get(key).copied(),
    }
}

/// How many entries there are.
pub fn len<K: Ord, V>(map: &BTreeMap<K, V>, spare: &Vec<(K, V)>) -> usize
    requires { IsWhole K.cmp map.now.entries spare.now.items }
    ensures len { result ≡ length (all_of K.cmp map.now.entries spare.now.items) }
    ensures taken { vec_len spare.now ≤ result }
{
    map.len() + spare.len()
}

/// Makes places for so many entries in all. The one error is running out of memory.
pub fn reserve_beyond<K: Ord, V>(
    spare: &mut Vec<(K, V)>,
    all: usize,
    further: usize,
) -> Result<(), AllocError>
    requires { vec_len spare.old ≤ vec_capacity spare.old }
    ensures ok { OnOk result (all + further ≤ vec_capacity spare.new) }
    ensures items { spare.new.items ≡ spare.old.items }
    ensures fit { vec_len spare.new ≤ vec_capacity spare.new }
    ensures capacity { vec_capacity spare.old ≤ vec_capacity spare.new }
    ensures sure { all + further ≤ vec_capacity spare.old → IsOk result }
{
    let _places = spare.capacity();
    let wanted = all.checked_add(further).ok_or(AllocError)?;
    spare.reserve(wanted.saturating_sub(spare.len()))
}

/// Puts an entry into the map, or where that finds no memory, into a reserved place.
pub fn put<K: Ord + Copy, V: Copy>(
    map: &mut BTreeMap<K, V>,
    spare: &mut Vec<(K, V)>,
    key: K,
    value: V,
)
where
    K: Drop,
    V: Drop,
    requires whole { IsWhole K.cmp map.old.entries spare.old.items }
    requires fit { vec_len spare.old ≤ vec_capacity spare.old }
    requires room { IsSome (at K.cmp (all_of K.cmp map.old.entries spare.old.items) key) ⊎ (vec_len spare.old < vec_capacity spare.old) }
    ensures entries { all_of K.cmp map.new.entries spare.new.items ≡ insert_entry K.cmp (all_of K.cmp map.old.entries spare.old.items) key value }
    ensures whole { IsWhole K.cmp map.new.entries spare.new.items }
    ensures taken { vec_len spare.new ≤ vec_len spare.old + 1 }
    ensures fit { vec_len spare.new ≤ vec_capacity spare.new }
    ensures same { IsSome (at K.cmp (all_of K.cmp map.old.entries spare.old.items) key) → vec_len spare.new ≤ vec_len spare.old }
    ensures places { vec_capacity spare.old ≤ vec_capacity spare.new }
{
    spare::take_out(spare, &key);
    match map.insert(key, value) {
        Ok(_) => {}
        Err(_) => spare::push(spare, key, value),
    }
}

/// Takes out what stands under a key.
pub fn take_out<K: Ord, V: Copy>(
    map: &mut BTreeMap<K, V>,
    spare: &mut Vec<(K, V)>,
    key: &K,
) -> Option<V>
where
    K: Drop,
    V: Drop,
    requires { IsWhole K.cmp map.old.entries spare.old.items }
    ensures value { result ≡ at K.cmp (all_of K.cmp map.old.entries spare.old.items) key.now }
    ensures entries { all_of K.cmp map.new.entries spare.new.items ≡ remove_entry (is_at (K.cmp key.now)) (all_of K.cmp map.old.entries spare.old.items) }
    ensures whole { IsWhole K.cmp map.new.entries spare.new.items }
    ensures taken { vec_len spare.new ≤ vec_len spare.old }
    ensures places { vec_capacity spare.new ≡ vec_capacity spare.old }
{
    let spared = spare::find(spare, key);
    spare::take_out(spare, key);
    let held = map.remove(key);
    spared.or(held)
}

/// A key from the first up to the last, if there is one.
pub fn one_within<K: Ord + Copy, V>(
    map: &BTreeMap<K, V>,
    spare: &Vec<(K, V)>,
    first: K,
    last: K,
) -> Option<K>
where
    K: Drop,
    requires whole { IsWhole K.cmp map.now.entries spare.now.items }
    requires range { IsLeBy K.cmp first last }
    ensures some { IfSome result (λ key. (range_contains K.cmp (Included first) (Included last) key ≡ true) × IsSome (at K.cmp (all_of K.cmp map.now.entries spare.now.items) key)) }
    ensures none { IfNone result ((key : K) → range_contains K.cmp (Included first) (Included last) key ≡ true → at K.cmp (all_of K.cmp map.now.entries spare.now.items) key ≡ None) }
{
    match map.range(first..=last).next() {
        Some((key, _)) => Some(*key),
        None => spare::one_within(spare, &first, &last),
    }
}
