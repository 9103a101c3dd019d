//! Whether a GETHASH answer can be the next piece of a file's chunks, and the chunks with it:
//! `broken_of` and `with_pairs` of `specs/Shape.antt`.

ghost use Rattle.std.specs.Prelude.{◌≡◌, ◌≤◌, length, IfOk, OnOk, ◌++◌};
ghost use Rattle.file_open.specs.Shape.{broken_of, broken_pair, broken_pairs, broken_sum, chunks_from, with_pairs};
ghost use Rattle.client_state.specs.View.{IsListing};
ghost use Rattle.limits.specs.declared.TheConstants.{FILE_MOST, PAIRS_MOST};
ghost use Rattle.chunk_cut.specs.Places.{end_of, end_from};

use chunk_cut::chunk::Chunk;
use client_state::task::Fetch;
use hash_calls::call::{Hashes, Pair};
use lb_base::items::Items;
use std::alloc::AllocError;
use transfer_rules::chunks::chunk_at;
use transfer_rules::pieces::broken_sum;

/// No file is longer, in bytes.
const FILE_LIMIT: u64 = limits::FILE_MOST;

/// No GETHASH answer has more chunks.
const PAIRS_MOST: u64 = limits::PAIRS_MOST as u64;

/// No chunk is longer, in bytes.
const CHUNK_MOST: u32 = limits::CHUNK_MOST;

/// Only the last chunk of a file is shorter, in bytes.
const CHUNK_LEAST: u32 = limits::CHUNK_LEAST;

/// What is wrong with a chunk, which is the file's last or not.
fn broken_pair(is_last: bool, pair: &Pair) -> Option<(u64, u64)>
    ensures { result ≡ broken_pair is_last pair.now }
{
    let size = pair.size;
    if size == 0 {
        return Some((0, 1));
    }
    if size > CHUNK_MOST {
        return Some((size as u64, CHUNK_MOST as u64));
    }
    if !is_last && size < CHUNK_LEAST {
        return Some((size as u64, CHUNK_LEAST as u64));
    }
    None
}

/// What is wrong with the first chunk of a piece that can't be; the piece is the file's last or not.
fn broken_pairs(is_last: bool, pairs: &[Pair]) -> Option<(u64, u64)>
    ensures { result ≡ broken_pairs is_last pairs.now }
{
    for (i, pair) in pairs.iter().enumerate() {
        let broken = broken_pair(is_last && i + 1 == pairs.len(), pair);
        if broken.is_some() {
            return broken;
        }
    }
    None
}

/// Where the last of a file's first chunks ends.
#[tactic(auto, using(crate::proofs::Ends::end_of_last))]
pub fn end_of(chunks: &[Chunk]) -> u64
    requires { end_of chunks.now ≤ FILE_MOST }
    ensures { result ≡ end_of chunks.now }
{
    let count = chunks.len();
    if count == 0 {
        return 0;
    }
    match chunk_at(chunks, count - 1) {
        Some(chunk) => chunk.start + chunk.len,
        None => 0,
    }
}

/// Where the last of the chunks ends that these pairs tell, from a place on.
fn end_from(at: u64, pairs: &[Pair]) -> u64
    requires at { at ≤ FILE_MOST }
    requires few { length pairs.now ≤ PAIRS_MOST }
    ensures { result ≡ end_from at (chunks_from at pairs.now) }
{
    let mut end = at;
    for pair in pairs {
        end += pair.size as u64;
    }
    end
}

/// What is wrong with where the chunks end, with those of a piece behind those of the fetch.
#[tactic(auto, using(crate::proofs::Ends::end_of_pairs))]
fn broken_end(fetch: &Fetch, hashes: &Hashes) -> Option<(u64, u64)>
    requires at { end_of fetch.now.chunks ≤ FILE_MOST }
    requires few { length hashes.now.pairs ≤ PAIRS_MOST }
    ensures { result ≡ broken_sum hashes.now.eof (end_of (with_pairs fetch.now.chunks hashes.now.pairs)) hashes.now.size (length hashes.now.pairs) }
{
    let end = end_from(end_of(fetch.chunks.as_slice()), hashes.pairs.as_slice());
    let count = hashes.pairs.len() as u64;
    broken_sum(hashes.eof, end, hashes.size, count)
}

/// The first number in a piece behind those of the fetch that breaks a bound, with the bound.
pub fn broken_of(fetch: &Fetch, hashes: &Hashes) -> Option<(u64, u64)>
    requires { IsListing fetch.now }
    ensures { result ≡ broken_of fetch.now hashes.now }
{
    if hashes.size > FILE_LIMIT {
        return Some((hashes.size, FILE_LIMIT));
    }
    let count = hashes.pairs.len() as u64;
    if count > PAIRS_MOST {
        return Some((count, PAIRS_MOST));
    }
    if hashes.size != fetch.size {
        return Some((hashes.size, fetch.size));
    }
    let broken = broken_pairs(hashes.eof, hashes.pairs.as_slice());
    if broken.is_some() {
        return broken;
    }
    broken_end(fetch, hashes)
}

/// Adds the chunks that the pairs tell, from a place on.
fn add_pairs(chunks: &mut Vec<Chunk>, at: u64, pairs: &[Pair]) -> Result<(), AllocError>
    requires at { at ≤ FILE_MOST }
    requires few { length pairs.now ≤ PAIRS_MOST }
    ensures { OnOk result (chunks.new.items ≡ chunks.old.items ++ chunks_from at pairs.now) }
{
    let mut start = at;
    for pair in pairs {
        let len = pair.size as u64;
        let digest = pair.digest;
        chunks.push(Chunk { start, len, digest })?;
        start += len;
    }
    Ok(())
}

/// The chunks that were told, with those of a further piece.
pub fn with_pairs(chunks: Items<Chunk>, pairs: &[Pair]) -> Result<Items<Chunk>, AllocError>
    requires at { end_of chunks ≤ FILE_MOST }
    requires few { length pairs.now ≤ PAIRS_MOST }
    ensures { IfOk result (λ cs. cs ≡ with_pairs chunks pairs.now) }
{
    let at = end_of(chunks.as_slice());
    let mut all = chunks.into_vec();
    add_pairs(&mut all, at, pairs)?;
    Ok(Items::from_vec(all))
}
