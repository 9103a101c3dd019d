//! What a fetch has of a file. `specs/Opening.antt` says how it grows.

ghost use Rattle.std.specs.Prelude.{◌≡◌, ◌<◌, ◌≤◌, length, Some, IfOk, slice_set};
ghost use Rattle.file_open.specs.Opening.{with_bytes, fetch_of, with_hashes, listed};
ghost use Rattle.chunk_slots.specs.Slots.{slots_bytes};
ghost use Rattle.limits.specs.declared.TheConstants.{FILE_MOST, PAIRS_MOST};
ghost use Rattle.chunk_cut.specs.Places.{end_of};

use crate::{calls, shape};
use chunk_slots::Slots;
use client_state::task::{Fetch, ReadCall};
use cut_bytes::CutBytes;
use hash_calls::call::Hashes;
use lb_base::items::{Bytes, Items};
use nfs3_calls::call::Piece;
use shared_bytes::SharedBytes;
use std::alloc::{AllocError, Global};
use std::mem;

/// An attempt whose first GETHASH had this xid, before its answer's chunks are listed. It takes no
/// memory.
pub fn fetch_of(alloc: Global, tries: u32, xid: u32, hashes: &Hashes) -> Fetch
    ensures { result ≡ fetch_of tries xid hashes.now }
{
    Fetch {
        tries,
        first: xid,
        version: hashes.version,
        size: hashes.size,
        chunks: Items::new(alloc),
        slots: Slots::none(alloc),
        asked: 0,
        under: Items::new(alloc),
    }
}

/// The fetch, with the chunks of a further piece.
pub fn with_hashes(mut fetch: Fetch, hashes: &Hashes) -> Result<Fetch, AllocError>
    requires at { end_of fetch.chunks ≤ FILE_MOST }
    requires few { length hashes.now.pairs ≤ PAIRS_MOST }
    ensures { IfOk result (λ f. f ≡ with_hashes fetch hashes.now) }
{
    fetch.chunks = shape::with_pairs(fetch.chunks, hashes.pairs.as_slice())?;
    Ok(fetch)
}

/// All chunks of the fetch are told, and none has come. Room for the file is taken.
pub fn listed(alloc: Global, mut fetch: Fetch) -> Result<Fetch, AllocError>
    ensures { IfOk result (λ f. f ≡ listed fetch) }
{
    fetch.slots = Slots::empty(alloc, fetch.chunks.len(), fetch.size as usize)?;
    Ok(fetch)
}

/// The bytes of the chunk at this place are here.
pub fn fill_slot(fetch: &mut Fetch, place: usize, bytes: Bytes)
    requires { place < length fetch.old.slots }
    ensures { fetch.new ≡ record fetch.old { slots = slice_set fetch.old.slots place (Some bytes) } }
{
    fetch.slots.fill(place, bytes);
}

/// The bytes have come that a READ asked for.
pub fn with_bytes(mut fetch: Fetch, call: ReadCall, bytes: Bytes) -> Fetch
    requires { call.index < length fetch.slots }
    ensures { result ≡ with_bytes fetch call bytes }
{
    fetch.slots.fill(call.index, bytes);
    fetch.under = calls::without_read(fetch.under, call.xid);
    fetch
}

/// What a READ brought, taken out of its answer. It takes no memory.
pub fn take_piece(alloc: Global, piece: &mut Piece) -> Piece
    ensures { result ≡ piece.old }
{
    Piece {
        attr: piece.attr,
        count: piece.count,
        eof: piece.eof,
        bytes: mem::replace(&mut piece.bytes, Items::new(alloc)),
    }
}

/// The bytes of all chunks that have come, with their digest. What of it was found while they came isn't found anew.
pub fn slots_bytes(alloc: Global, mut slots: Slots) -> Result<CutBytes, AllocError>
    ensures { IfOk result (λ b. b ≡ slots_bytes slots) }
{
    let ahead = slots.take_ahead();
    let bytes = slots.into_bytes(alloc)?;
    let content = CutBytes::whole(SharedBytes::new(alloc, bytes)?);
    Ok(content.hashed_by(ahead))
}
