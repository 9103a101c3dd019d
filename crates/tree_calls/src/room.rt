//! Places that changes take in a store.

ghost use Rattle.std.specs.Prelude.{◌≡◌, ◌+◌, ◌≤◌, OnOk};

use file_tree::places::places;
use std::alloc::AllocError;
use store::store::Store;
use tree_reading::call::Reservation;

/// Takes so many places in the store, beside one for each entry of the pending changes. The one error
/// is running out of memory; no record changes.
pub fn reserve<S: Store>(store: &mut S, held: Reservation, count: u8) -> Result<(), AllocError>
    ensures spare { OnOk result (held.entries + count ≤ S.spare store.new) }
    ensures kept { S.spare store.old ≤ S.spare store.new }
    ensures records { S.records store.new ≡ S.records store.old }
    ensures later { S.faults store.old ≤ S.faults store.new }
{
    let all = places(held, count)?;
    store.reserve(all)
}
