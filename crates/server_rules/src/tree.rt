//! Rules of the tree: how changes are counted, whether they are too many, that no id is given again,
//! whether a name still stands for a node, and which entries a change over something makes.
//! `specs/Tree.antt` says it. None of this takes memory.

ghost use Rattle.std.specs.Prelude.{◌≡◌, ◌+◌, ◌<◌, ◌^◌, Some};
ghost use Rattle.server_rules.specs.Tree.{are_too_many, is_still};

use limits::CHANGES_MOST;

/// Whether so many changes more have no room, where so many were ever made, and those that wait will
/// make so many entries.
pub fn are_too_many(changes: u64, waiting: u64, more: u64) -> bool
    ensures { result ≡ are_too_many changes waiting more }
{
    changes as u128 + waiting as u128 + more as u128 > CHANGES_MOST as u128
}

/// How many changes were ever made, once these were made too. It is the version of each directory whose
/// names they changed.
pub fn changes_after(changes: u64, more: u64) -> u64
    requires { changes + more < 2 ^ 64 }
    ensures { result ≡ changes + more }
{
    changes + more
}

/// The id that the next node gets, once the node of an id is gone: that id isn't given again.
pub fn next_once_gone(next: u64, gone: u64) -> u64
    ensures { result ≡ next }
{
    // It is lent so that giving the id again is a bug that can be tried (`must-fail`).
    let _gone = gone;
    next
}

/// Whether the node of this id is that which a name stood for before.
pub fn is_still(found: u64, before: u64) -> bool
    ensures { result ≡ is_still found before }
{
    found == before
}

/// The entries of a change over something, which goes: one of what goes, and then one of what gets its
/// name.
pub fn two_entries<E: Copy>(gone: E, named: E) -> (Option<E>, Option<E>)
    ensures first { result.0 ≡ Some gone }
    ensures second { result.1 ≡ Some named }
{
    (Some(gone), Some(named))
}
