//! The places that changes take in a store: one an entry.

ghost use Rattle.std.specs.Prelude.{◌≡◌, ◌+◌, IfOk};

use std::alloc::AllocError;
use tree_reading::call::Reservation;

/// How many places a store needs for all pending changes, one an entry, and for so many more. The
/// one error is running out of memory, as which 2^32 - 255 entries or more count too.
pub fn places(held: Reservation, more: u8) -> Result<u32, AllocError>
    ensures { IfOk result (λ n. n ≡ held.entries + more) }
{
    if held.entries > u64::from(u32::MAX - 255) {
        return Err(AllocError);
    }
    Ok(held.entries as u32 + u32::from(more))
}
