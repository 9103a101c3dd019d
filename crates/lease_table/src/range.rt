//! Which keys stand from one up to another (`range_contains` of std).

ghost use Rattle.std.specs.Prelude.{◌≡◌};
ghost use Rattle.std.specs.BTreeMap.Range.{range_contains};
ghost use Rattle.std.specs.declared.ops.Bound.TheVariants.{Included};

use std::cmp::Ordering;

/// Whether a key stands from the first up to the last.
pub fn is_within<K: Ord>(key: &K, first: &K, last: &K) -> bool
    ensures { result ≡ range_contains K.cmp (Included first.now) (Included last.now) key.now }
{
    match first.cmp(key) {
        Ordering::Greater => false,
        Ordering::Less | Ordering::Equal => match last.cmp(key) {
            Ordering::Less => false,
            Ordering::Equal | Ordering::Greater => true,
        },
    }
}
