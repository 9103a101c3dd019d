//! The count of faults that an object of the outside keeps. When such a count has risen states
//! `specs/Causes.antt`.

ghost use Rattle.std.specs.Prelude.{◌≡◌, ◌+◌, ◌-◌, ◌^◌, min};

/// The count after one more; it stands still at the end of its type.
pub fn one_more(count: u64) -> u64
    ensures { result ≡ min (count + 1) (2 ^ 64 - 1) }
{
    count.saturating_add(1)
}
