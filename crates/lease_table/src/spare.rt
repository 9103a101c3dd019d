//! The entries in reserved places, in no order (`at` and `without` in `specs/Reserved.antt`). There are
//! some only after memory ran out, so they are looked through.

ghost use Rattle.std.specs.Prelude.{◌≡◌, ◌≤◌, ◌<◌, ◌+◌, ◌++◌, ◌∷◌, [], IsSome, IfSome, IfNone, vec_len, vec_capacity, true, None};
ghost use Rattle.std.specs.BTreeMap.{is_at};
ghost use Rattle.std.specs.BTreeMap.Range.{range_contains};
ghost use Rattle.std.specs.Ordering.{is_lt};
ghost use Rattle.std.specs.declared.ops.Bound.TheVariants.{Included};
ghost use Rattle.lease_table.specs.Reserved.{at, without};

use crate::range::is_within;
use std::cmp::Ordering;

/// Whether a key is the other.
pub fn is_at<K: Ord>(key: &K, other: &K) -> bool
    ensures { result ≡ is_at (K.cmp key.now) other.now }
{
    match key.cmp(other) {
        Ordering::Equal => true,
        Ordering::Less | Ordering::Greater => false,
    }
}

/// Whether a key comes before the other.
pub fn comes_before<K: Ord>(key: &K, other: &K) -> bool
    ensures { result ≡ is_lt (K.cmp key.now other.now) }
{
    match key.cmp(other) {
        Ordering::Less => true,
        Ordering::Equal | Ordering::Greater => false,
    }
}

/// The value under a key.
pub fn find<K: Ord, V: Copy>(spare: &[(K, V)], key: &K) -> Option<V>
    ensures { result ≡ at K.cmp spare.now key.now }
{
    for entry in spare {
        if is_at(key, &entry.0) {
            return Some(entry.1);
        }
    }
    None
}

/// Takes out what stands under a key.
pub fn take_out<K: Ord, V>(spare: &mut Vec<(K, V)>, key: &K)
where
    K: Drop,
    V: Drop,
    ensures items { spare.new.items ≡ without K.cmp spare.old.items key.now }
    ensures len { vec_len spare.new ≤ vec_len spare.old }
    ensures capacity { vec_capacity spare.new ≡ vec_capacity spare.old }
{
    spare.retain(|entry| !is_at(key, &entry.0));
}

/// A key from the first up to the last, if there is one.
pub fn one_within<K: Ord + Copy, V>(spare: &[(K, V)], first: &K, last: &K) -> Option<K>
    ensures some { IfSome result (λ key. (range_contains K.cmp (Included first.now) (Included last.now) key ≡ true) × IsSome (at K.cmp spare.now key)) }
    ensures none { IfNone result ((key : K) → range_contains K.cmp (Included first.now) (Included last.now) key ≡ true → at K.cmp spare.now key ≡ None) }
{
    for entry in spare {
        if is_within(&entry.0, first, last) {
            return Some(entry.0);
        }
    }
    None
}

/// Puts an entry into a place that is there.
pub fn push<K, V>(spare: &mut Vec<(K, V)>, key: K, value: V)
where
    K: Drop,
    V: Drop,
    requires { vec_len spare.old < vec_capacity spare.old }
    ensures items { spare.new.items ≡ spare.old.items ++ (key, value) ∷ [] }
    ensures len { vec_len spare.new ≡ vec_len spare.old + 1 }
    ensures capacity { vec_capacity spare.old ≤ vec_capacity spare.new }
{
    let _ = spare.push((key, value));
}
