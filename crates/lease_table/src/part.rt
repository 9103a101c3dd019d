//! The entries from one key up to another, by rising key (`entries_between` of std).

ghost use Rattle.std.specs.Prelude.{◌≡◌, ◌≤◌, IfOk, OnOk, cond, filter, insert, length, true, None};
ghost use Rattle.std.specs.BTreeMap.{insert_entry};
ghost use Rattle.std.specs.BTreeMap.Range.{range_contains, entries_between, IsLeBy};
ghost use Rattle.std.specs.List.Sorted.{IsStrictlySortedBy};
ghost use Rattle.std.specs.Map.{keys_of};
ghost use Rattle.std.specs.declared.ops.Bound.TheVariants.{Included};
ghost use Rattle.lease_table.specs.Reserved.{at, all_of, AreApart, IsExact, IsWhole};

use crate::range::is_within;
use crate::spare::comes_before;
use std::alloc::{AllocError, Global};
use std::collections::BTreeMap;

/// Where an entry under a key is to stand, which stands among the entries not yet.
fn place_of<K: Ord, V>(entries: &[(K, V)], key: &K) -> usize
    requires { at K.cmp entries.now key.now ≡ None }
    ensures within { result ≤ length entries.now }
    ensures place { (v : V) → insert entries.now result (key.now, v) ≡ insert_entry K.cmp entries.now key.now v }
{
    for at in 0..entries.len() {
        if comes_before(key, &entries[at].0) {
            return at;
        }
    }
    entries.len()
}

/// Puts an entry among those that stand by rising key, and have none under its key.
fn put_among<K: Ord + Copy, V: Copy>(
    entries: &mut Vec<(K, V)>,
    key: K,
    value: V,
) -> Result<(), AllocError>
where
    K: Drop,
    V: Drop,
    requires { at K.cmp entries.old.items key ≡ None }
    ensures { OnOk result (entries.new.items ≡ insert_entry K.cmp entries.old.items key value) }
{
    let place = place_of(entries, &key);
    entries.insert(place, (key, value))?;
    Ok(())
}

/// The entries of a map from the first key up to the last.
fn held<K: Ord + Copy, V: Copy>(
    alloc: Global,
    map: &BTreeMap<K, V>,
    first: K,
    last: K,
) -> Result<Vec<(K, V)>, AllocError>
where
    K: Drop,
    V: Drop,
    requires { IsLeBy K.cmp first last }
    ensures { IfOk result (λ entries. entries.items ≡ entries_between K.cmp (Included first) (Included last) map.now.entries) }
{
    let mut entries = Vec::new(alloc);
    for (key, value) in map.range(first..=last) {
        entries.push((*key, *value))?;
    }
    Ok(entries)
}

/// Puts an entry among them that stands in a reserved place, if its key is one of those.
fn add_if<K: Ord + Copy, V: Copy>(
    entries: &mut Vec<(K, V)>,
    key: K,
    value: V,
    first: &K,
    last: &K,
) -> Result<(), AllocError>
where
    K: Drop,
    V: Drop,
    requires { range_contains K.cmp (Included first.now) (Included last.now) key ≡ true → at K.cmp entries.old.items key ≡ None }
    ensures { OnOk result (entries.new.items ≡ cond (range_contains K.cmp (Included first.now) (Included last.now) key) (insert_entry K.cmp entries.old.items key value) entries.old.items) }
{
    if is_within(&key, first, last) {
        return put_among(entries, key, value);
    }
    Ok(())
}

/// Puts those in reserved places among them.
fn add_spared<K: Ord + Copy, V: Copy>(
    entries: &mut Vec<(K, V)>,
    spare: &[(K, V)],
    first: &K,
    last: &K,
) -> Result<(), AllocError>
where
    K: Drop,
    V: Drop,
    requires exact { IsExact K.cmp }
    requires sorted { IsStrictlySortedBy K.cmp (keys_of entries.old.items) }
    requires apart { AreApart K.cmp entries.old.items (filter (λ p. range_contains K.cmp (Included first.now) (Included last.now) p.0) spare.now) }
    ensures { OnOk result (entries.new.items ≡ all_of K.cmp entries.old.items (filter (λ p. range_contains K.cmp (Included first.now) (Included last.now) p.0) spare.now)) }
{
    for entry in spare {
        add_if(entries, entry.0, entry.1, first, last)?;
    }
    Ok(())
}

/// The entries of both from the first key up to the last.
pub fn between<K: Ord + Copy, V: Copy>(
    alloc: Global,
    map: &BTreeMap<K, V>,
    spare: &Vec<(K, V)>,
    first: K,
    last: K,
) -> Result<Vec<(K, V)>, AllocError>
where
    K: Drop,
    V: Drop,
    requires whole { IsWhole K.cmp map.now.entries spare.now.items }
    requires range { IsLeBy K.cmp first last }
    ensures { IfOk result (λ entries. entries.items ≡ entries_between K.cmp (Included first) (Included last) (all_of K.cmp map.now.entries spare.now.items)) }
{
    let mut entries = held(alloc, map, first, last)?;
    match add_spared(&mut entries, spare, &first, &last) {
        Ok(()) => Ok(entries),
        Err(want) => {
            drop(entries);
            Err(want)
        }
    }
}
