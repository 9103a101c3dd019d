//! What the index gives of a chunk among what is kept of files: `specs/Caching.antt`.

ghost use Rattle.std.specs.Prelude.{◌≡◌, ◌-◌, ◌≤◌, length, take, drop, is_some, IfOk, false, true};
ghost use Rattle.client_cache.specs.Cache.{content_of, fresh_of, lent};
ghost use Rattle.file_open.specs.Caching.{found_all, content_in, fresh_content, bytes_there, from_index};
ghost use Rattle.std.specs.Option.{option_copied};
ghost use Rattle.chunk_index.specs.Places.{indexed, LeavesSome};

use chunk_cut::chunk::Chunk;
use chunk_index::known;
use chunk_index::place::Place;
use client_state::state::ClientState;
use client_state::task::Fetch;
use cut_bytes::CutBytes;
use lb_base::items::Bytes;
use std::alloc::{AllocError, Global};
use transfer_rules::pieces;

/// Whether a content is kept of a file.
pub fn is_kept(state: &ClientState, file: u64) -> bool
    ensures { result ≡ is_some (content_of state.now.cache file) }
{
    match state.kept().content(file) {
        Some(_) => true,
        None => false,
    }
}

/// Whether a content is kept of a file whose note of that version hasn't ended.
fn is_fresh(state: &ClientState, file: u64, now: u64) -> bool
    ensures { result ≡ is_some (fresh_of state.now.cache file now) }
{
    match state.kept().fresh(file, now) {
        Some(_) => true,
        None => false,
    }
}

/// The content that is kept of a file, with its version, where it is fresh at a reading of the clock: nobody
/// needs to be asked. What is no file's has the version 0, and isn't lent, whatever a server told. It takes no
/// memory.
pub fn fresh_at(state: &ClientState, file: u64, now: u64) -> Option<(u64, &CutBytes)>
    ensures { lent result ≡ fresh_content state.now.cache file now }
{
    let is_fresh = is_fresh(state, file, now);
    let Some((version, bytes)) = state.kept().content(file) else {
        return None;
    };
    if is_fresh && version != 0 {
        Some((version, bytes))
    } else {
        None
    }
}

/// As `fresh_at`, at the client's own reading.
pub fn fresh(state: &ClientState, file: u64) -> Option<(u64, &CutBytes)>
    ensures { lent result ≡ fresh_content state.now.cache file state.now.clock }
{
    fresh_at(state, file, state.clock())
}

/// One more owner of the content that is kept of a file in this version. Nothing is in version 0, which
/// no file has: what is kept in it is no file's, so a server that tells it doesn't open that.
pub fn content_in(
    state: &ClientState,
    file: u64,
    version: u64,
) -> Result<Option<CutBytes>, AllocError>
    ensures { IfOk result (λ bytes. bytes ≡ content_in version (content_of state.now.cache file)) }
{
    let Some((kept, bytes)) = state.kept().content(file) else {
        return Ok(None);
    };
    if pieces::is_of_version(version, kept) && version != 0 {
        Ok(Some(bytes.share()?))
    } else {
        Ok(None)
    }
}

/// The bytes of a place that has as many as the chunk, where they are kept.
fn bytes_there<'a>(state: &'a ClientState, chunk: &Chunk, place: Option<Place>) -> Option<&'a [u8]>
    ensures { option_copied result ≡ bytes_there state.now.cache chunk.now place }
{
    let place = place?;
    if place.count == chunk.len {
        state.kept().bytes_at(place)
    } else {
        None
    }
}

/// The bytes of a chunk that the index gives, where they have its digest. No pair of the index moves.
fn kept_bytes<'a>(state: &'a ClientState, chunk: &Chunk) -> Option<&'a [u8]>
    ensures { option_copied result ≡ from_index state.now.cache state.now.index chunk.now }
{
    let found = bytes_there(state, chunk, state.place_of(chunk.digest.as_slice()));
    known::with_digest(found, &chunk.digest)
}

/// A copy of the bytes of a chunk that the index gives, where they have its digest. The one error is
/// running out of memory.
pub fn from_index(
    alloc: Global,
    state: &ClientState,
    chunk: &Chunk,
) -> Result<Option<Bytes>, AllocError>
    ensures { IfOk result (λ bytes. bytes ≡ from_index state.now.cache state.now.index chunk.now) }
{
    match kept_bytes(state, chunk) {
        Some(bytes) => Ok(Some(Bytes::copy_of(alloc, bytes)?)),
        None => Ok(None),
    }
}

/// The pairs of the chunks of a fetch that were looked up, from a place on, go to the front.
pub fn find_asked(state: &mut ClientState, fetch: &Fetch, from: usize)
    requires from { from ≤ fetch.now.asked }
    requires asked { fetch.now.asked ≤ length fetch.now.chunks }
    ensures { state.new
        ≡ record state.old {
          index = found_all state.old.index
              (take (fetch.now.asked - from) (drop from fetch.now.chunks));
        } }
{
    state.find_all(&fetch.chunks.as_slice()[from..fetch.asked]);
}

/// A fetch ends: its chunks were looked up from a place on, and then the places of all enter, but
/// those for which memory runs out; says whether it was.
pub fn enter_fetched(state: &mut ClientState, file: u64, fetch: &Fetch, from: usize) -> bool
    requires from { from ≤ fetch.now.asked }
    requires asked { fetch.now.asked ≤ length fetch.now.chunks }
    ensures rest { state.new ≡ record state.old { index = state.new.index } }
    ensures all { result ≡ false → state.new.index ≡ indexed (found_all state.old.index (take (fetch.now.asked - from) (drop from fetch.now.chunks))) file fetch.now.chunks }
    ensures lacks { result ≡ true → LeavesSome (found_all state.old.index (take (fetch.now.asked - from) (drop from fetch.now.chunks))) file fetch.now.chunks state.new.index }
{
    find_asked(state, fetch, from);
    state.enter(file, fetch.chunks.as_slice())
}
