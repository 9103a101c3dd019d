//! What a GETHASH is told: the chunks of a file that meet a range. `specs/Answers.antt` says which.

ghost use Rattle.std.specs.Prelude.{◌≡◌, ◌+◌, ◌≤◌, length, take, drop, map, filter, nat_lt, nat_le, IfOk, OnErr};
ghost use Rattle.std.specs.List.{All};
ghost use Rattle.std.specs.List.Sorted.{IsNonDecreasingBy};
ghost use Rattle.chunk_cut.specs.Places.{end_of};
ghost use Rattle.temp_files.specs.Pieces.{size_most};
ghost use Rattle.chunk_calls.specs.Answers.{node_of, told_chunks, pair_of, hashes_of, hash_answer, IsFile};
ghost use Rattle.chunk_calls.specs.Chunks.{ends_behind, begins_before, IsWithin};

use chunk_cut::chunk::Chunk;
use file_tree::tree::Tree;
use hash_calls::call::{HashRange, Hashes, Pair};
use lb_base::items::Items;
use limits::PAIRS_MOST;
use std::alloc::{AllocError, Global};
use tree_nodes::content::Content;
use tree_nodes::node::{Body, Node};
use xdr_codec::answer::Answer;
use xdr_codec::status::Status;

/// How many of the first chunks end at a place or before it. They are found by halves.
fn count_ended(chunks: &[Chunk], place: u64) -> usize
    requires { IsNonDecreasingBy (λ c. c.start + c.len) chunks.now }
    ensures bound { result ≤ length chunks.now }
    ensures rest { drop result chunks.now ≡ filter (ends_behind place) chunks.now }
{
    let place = u128::from(place);
    chunks.partition_point(
        |chunk: &Chunk| -> bool
            ensures { result ≡ nat_le (chunk.now.start + chunk.now.len) place }
        { u128::from(chunk.start) + u128::from(chunk.len) <= place },
    )
}

/// How many of the first chunks begin before a place. They are found by halves.
fn count_begun(chunks: &[Chunk], place: u128) -> usize
    requires { IsNonDecreasingBy (λ c. c.start) chunks.now }
    ensures bound { result ≤ length chunks.now }
    ensures front { take result chunks.now ≡ filter (begins_before place) chunks.now }
{
    chunks.partition_point(
        |chunk: &Chunk| -> bool
            ensures { result ≡ nat_lt chunk.now.start place }
        { u128::from(chunk.start) < place },
    )
}

/// The chunks of a content that are told of a range.
pub fn told_chunks<'a>(content: &'a Content, range: &HashRange) -> &'a [Chunk]
    ensures { result.now ≡ told_chunks content.now range.now }
{
    let chunks = content.chunks();
    if range.count == 0 {
        return &chunks[..0];
    }
    let rest = &chunks[count_ended(chunks, range.offset)..];
    let met = count_begun(rest, u128::from(range.offset) + u128::from(range.count));
    &rest[..met.min(PAIRS_MOST as usize)]
}

/// The digests and lengths of chunks, as they are told. The one error is running out of memory.
fn pairs_of(alloc: Global, chunks: &[Chunk]) -> Result<Items<Pair>, AllocError>
    requires { All (IsWithin size_most) chunks.now }
    ensures { IfOk result (λ pairs. pairs ≡ map pair_of chunks.now) }
{
    let mut pairs = Vec::with_capacity(alloc, chunks.len())?;
    for chunk in chunks {
        pairs.push(Pair {
            digest: chunk.digest,
            size: chunk.len as u32,
        })?;
    }
    Ok(Items::from_vec(pairs))
}

/// Where the last of these chunks ends; where there is none, 0.
fn end_of(told: &[Chunk]) -> u64
    requires { All (IsWithin size_most) told.now }
    ensures { result ≡ end_of told.now }
{
    match told.last() {
        Some(last) => last.start + last.len,
        None => 0,
    }
}

/// The chunks of a file that meet the range, and the term of the lease on it. The one error is
/// running out of memory.
fn hashes_of(
    alloc: Global,
    term: u32,
    node: &Node,
    content: &Content,
    range: &HashRange,
) -> Result<Hashes, AllocError>
    requires { length content.now ≤ size_most }
    ensures { IfOk result (λ h. h ≡ hashes_of term (record { id = node.now.id; version = node.now.version; content = content.now }) range.now) }
{
    let told = told_chunks(content, range);
    let size = content.len() as u64;
    let pairs = pairs_of(alloc, told)?;
    Ok(Hashes {
        version: node.version,
        term,
        size,
        pairs,
        eof: size <= range.offset || end_of(told) == size,
    })
}

/// What a GETHASH is answered that is granted a lease of this term, in milliseconds, or 0. The one
/// error is running out of memory.
pub fn hash_answer(
    alloc: Global,
    term: u32,
    tree: &Tree,
    range: &HashRange,
) -> Result<Answer<Hashes, ()>, AllocError>
    ensures ok { IfOk result (λ a. a ≡ hash_answer term (node_of tree.now.tree range.now.handle) range.now) }
    ensures takes { OnErr result (IsFile (node_of tree.now.tree range.now.handle)) }
{
    let Some(id) = range.handle.file_of() else {
        return Ok(Answer::Failed(Status::BadHandle, ()));
    };
    let Some(node) = tree.node(id) else {
        return Ok(Answer::Failed(Status::Stale, ()));
    };
    match &node.body {
        Body::Directory => Ok(Answer::Failed(Status::IsDir, ())),
        Body::File(content) => {
            let hashes = hashes_of(alloc, term, node, content, range)?;
            Ok(Answer::Done(hashes))
        }
    }
}
