//! What a close has of a content: `store_of` and the bytes of a chunk, by `specs/Closing.antt`.

ghost use Rattle.std.specs.Prelude.{◌≡◌, ◌≤◌, length, IfOk};
ghost use Rattle.limits.specs.declared.TheConstants.{FILE_MOST};
ghost use Rattle.sha1.specs.Sha1.{sha1};
ghost use Rattle.client_state.specs.Counting.{ends, no_counts};
ghost use Rattle.file_close.specs.Closing.{store_of, answered, with_whole};
ghost use Rattle.client_state.specs.View.{IsStore};
ghost use Rattle.chunk_cut.specs.Places.{chunk_bytes};
ghost use Rattle.client_state.specs.declared.step.Outcome.TheVariants as outcome;

use crate::calls;
use chunk_cut::chunk::Chunk;
use client_state::step::{ClientStep, Outcome};
use client_state::task::{Upload, UploadCall, Way};
use client_state::{local, parts};
use cut_bytes::CutBytes;
use lb_base::items::Items;
use std::alloc::{AllocError, Global};
use transfer_rules::counts::{Counts, no_counts};

/// So many CONDWRITEs were sent.
pub fn names_counted(count: u64) -> Counts
    ensures { result ≡ record no_counts { cond_writes = count } }
{
    Counts {
        cond_writes: count,
        ..no_counts()
    }
}

/// A TMPWRITE with so many bytes was sent.
pub fn whole_counted(bytes: u64) -> Counts
    ensures { result ≡ record no_counts { temp_writes = 1; bytes = bytes } }
{
    Counts {
        temp_writes: 1,
        bytes,
        ..no_counts()
    }
}

/// How many bytes a chunk of a content has.
pub fn bytes_count(content: &[u8], chunk: &Chunk) -> u64
    ensures { result ≡ length (chunk_bytes content.now chunk.now) }
{
    local::part_of(content, chunk.start, chunk.len).len() as u64
}

/// The temporary file of this number is there, and no chunk of the content in it. The content is cut where
/// that wasn't done ahead.
pub fn store_of(alloc: Global, temp: u32, content: &CutBytes) -> Result<Upload, AllocError>
    requires { length content.now ≤ FILE_MOST }
    ensures store { IfOk result (λ st. st ≡ store_of temp content.now) }
    ensures within { IfOk result (λ st. IsStore st) }
{
    chunk_cut::ends_law();
    let chunks = content.chunks(alloc)?;
    Ok(Upload {
        temp,
        chunks,
        named: 0,
        under: Items::new(alloc),
    })
}

/// The call with this xid is no longer under way. It takes no memory.
pub fn answered(mut store: Upload, xid: u32) -> Upload
    ensures { result ≡ answered store xid }
{
    store.under = calls::without_store(store.under, xid);
    store
}

/// The bytes of the chunk go out that this CONDWRITE named.
pub fn with_whole(mut store: Upload, call: UploadCall, xid: u32) -> Result<Upload, AllocError>
    ensures { IfOk result (λ st. st ≡ with_whole store call xid) }
{
    let index = call.index;
    let way = Way::Whole;
    store.under.push(UploadCall { xid, index, way })?;
    Ok(store)
}

/// A close ends: the file has this content in this version, by the call with this xid. It takes no
/// memory.
pub fn closed(alloc: Global, file: u64, version: u64, content: &CutBytes, xid: u32) -> ClientStep
    ensures { result ≡ ends (outcome.Closed file version (length content.now) (sha1 content.now)) xid 0 }
{
    let outcome = Outcome::Closed {
        file,
        version,
        len: content.len() as u64,
        sha1: content.digest(),
    };
    parts::ends(alloc, outcome, xid, 0)
}
