//! Hints: places that a mount adds to the index, and contents that are no file's, where the index of chunks
//! may find bytes. `specs/Hints.antt` says what they make of a client. Nobody trusts them.

ghost use Rattle.std.specs.Prelude.{◌≡◌, ◌≤◌, length, IfOk, OnErr};
ghost use Rattle.std.specs.List.{concat};
ghost use Rattle.limits.specs.declared.TheConstants.{FILE_MOST};
ghost use Rattle.client_cache.specs.Cache.{reserved, with_content};
ghost use Rattle.client_state.specs.Hints.{Enters, Learns, Offers, Warms, laid_from};
ghost use Rattle.client_state.specs.View.{state_of, IsSound};
ghost use Rattle.chunk_cut.specs.Chunks.{chunks_of};

use crate::state::ClientState;
use chunk_cut::chunk::Chunk;
use chunk_index::index::Index;
use client_cache::cache::Cache;
use cut_bytes::CutBytes;
use digests::Dig;
use lb_base::items::{Bytes, Items};
use limits::FILE_MOST;
use shared_bytes::SharedBytes;
use std::alloc::{AllocError, Global};

/// The id under which the bytes of a cache file are kept: no file has it.
const CACHED_FILE: u64 = 0;

/// The id under which a content is kept that was offered: no file has it.
const OFFERED_FILE: u64 = u64::MAX;

/// Puts the places of a content's chunks into the index; says whether some were left out, for
/// running out of memory. An `Err`, which is running out of memory too, changes nothing.
fn enter(
    alloc: Global,
    index: &mut Index,
    file: u64,
    content: &CutBytes,
) -> Result<bool, AllocError>
    ensures ok { IfOk result (λ left_out. Enters index.old file (chunks_of content.now) left_out index.new) }
    ensures err { OnErr result (index.new ≡ index.old) }
{
    let chunks = content.chunks(alloc)?;
    Ok(chunk_index::places::enter(index, file, chunks.as_slice()))
}

/// Keeps a content that is no file's under an id that no file has. An `Err` changes nothing.
fn keep(cache: &mut Cache, file: u64, content: SharedBytes) -> Result<(), AllocError>
    ensures ok { IfOk result (λ _. cache.new ≡ with_content (reserved cache.old file) file 0 content) }
    ensures err { OnErr result (cache.new ≡ cache.old) }
{
    cache.reserve(file)?;
    cache.keep(file, 0, content);
    Ok(())
}

/// The bytes of items, one behind the other.
fn joined(alloc: Global, items: &[Bytes]) -> Result<Bytes, AllocError>
    ensures { IfOk result (λ bytes. bytes ≡ concat items.now) }
{
    let mut bytes = Vec::new(alloc);
    for item in items {
        bytes.extend_from_slice(item.as_slice())?;
    }
    Ok(Items::from_vec(bytes))
}

/// Where they are then, each under its digest.
fn laid(alloc: Global, items: &[Bytes]) -> Result<Items<Chunk>, AllocError>
    requires { length (concat items.now) ≤ FILE_MOST }
    ensures { IfOk result (λ chunks. chunks ≡ laid_from 0 items.now) }
{
    let mut chunks = Items::new(alloc);
    let mut start = 0;
    for item in items {
        let digest = Dig::sha1(chunk_cut::digest(item.as_slice()));
        let len = item.len() as u64;
        chunks.push(Chunk { start, len, digest })?;
        start += len;
    }
    Ok(chunks)
}

impl ClientState {
    /// The places of the chunks of what is kept of a file enter the index; says whether some were left
    /// out, for running out of memory. An `Err`, which is running out of memory too, changes nothing.
    pub fn learn(&mut self, alloc: Global, file: u64) -> Result<bool, AllocError>
        requires { IsSound self.old }
        ensures ok { IfOk result (λ left_out. Learns (state_of self.old) file left_out (state_of self.new)) }
        ensures err { OnErr result (state_of self.new ≡ state_of self.old) }
        ensures sound { IsSound self.new }
    {
        match self.cache.content(file) {
            None => Ok(false),
            Some((_version, bytes)) => enter(alloc, &mut self.index, file, bytes),
        }
    }

    /// A content is kept that is no file's, in place of the one that was offered before, and the places of
    /// its chunks enter the index; says whether some were left out, for running out of memory. While an operation
    /// is under way nothing is done. An `Err`, which is running out of memory too, changes nothing.
    pub fn offer(&mut self, alloc: Global, content: SharedBytes) -> Result<bool, AllocError>
        requires sound { IsSound self.old }
        requires small { length content ≤ FILE_MOST }
        ensures ok { IfOk result (λ left_out. Offers (state_of self.old) content left_out (state_of self.new)) }
        ensures err { OnErr result (state_of self.new ≡ state_of self.old) }
        ensures sound { IsSound self.new }
    {
        if self.task.is_some() {
            drop(content);
            return Ok(false);
        }
        let chunks = chunk_cut::cut(alloc, content.as_slice())?;
        keep(&mut self.cache, OFFERED_FILE, content)?;
        Ok(chunk_index::places::enter(&mut self.index, OFFERED_FILE, chunks.as_slice()))
    }

    /// The items of a cache file are kept, one behind the other, in place of those before, and
    /// their places enter the index, each under the digest of its bytes; says whether some were
    /// left out, for running out of memory. While an operation is under way nothing is done, and
    /// neither where they have more bytes than a file may have. An `Err`, which is running out of
    /// memory too, changes nothing.
    pub fn warm(&mut self, alloc: Global, items: &[Bytes]) -> Result<bool, AllocError>
        requires { IsSound self.old }
        ensures ok { IfOk result (λ left_out. Warms (state_of self.old) items.now left_out (state_of self.new)) }
        ensures err { OnErr result (state_of self.new ≡ state_of self.old) }
        ensures sound { IsSound self.new }
    {
        if self.task.is_some() {
            return Ok(false);
        }
        let bytes = joined(alloc, items)?;
        if bytes.len() as u64 > FILE_MOST {
            return Ok(false);
        }
        let chunks = laid(alloc, items)?;
        let content = SharedBytes::new(alloc, bytes)?;
        keep(&mut self.cache, CACHED_FILE, content)?;
        Ok(chunk_index::places::enter(&mut self.index, CACHED_FILE, chunks.as_slice()))
    }
}
