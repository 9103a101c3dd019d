//! Cuts contents into chunks at places that their bytes decide, and names each chunk by its digest.
//! Where a chunk may end stands in `specs/Ends.antt`, what the chunks are in `specs/Chunks.antt`.
#![tactic(auto)]

ghost use Rattle.std.specs.Prelude.{◌≡◌, ℕ, List, IfOk};
ghost use Rattle.sha1.specs.Sha1.{sha1};
ghost use Rattle.chunk_cut.specs.Chunks.{chunks_between, chunks_of};
ghost use Rattle.chunk_cut.specs.Ends.{AreEnds};
ghost use Rattle.chunk_cut.specs.Search.{ends};

use lb_base::items::Items;
use sha1::Sha1;
use std::alloc::{AllocError, Global};
use std::thread::{Threads, join};

pub mod chunk;
pub mod cutter;
mod scan;

use chunk::Chunk;
use cutter::Cutter;

/// The name of a chunk with these bytes: their SHA-1 digest.
pub fn digest(bytes: &[u8]) -> [u8; 20]
    ensures { result ≡ sha1 bytes.now }
{
    Sha1::digest(bytes)
}

/// The chunks of the content, in order. The one error is running out of memory.
pub fn cut(alloc: Global, content: &[u8]) -> Result<Items<Chunk>, AllocError>
    ensures { IfOk result (λ chunks. chunks ≡ chunks_of content.now) }
{
    let mut cutter = Cutter::new();
    let mut chunks = cutter.feed(alloc, content)?;
    chunk::list(&mut chunks, cutter.finish())?;
    Ok(chunks)
}

/// A content of fewer bytes has its digest in less than some 30 milliseconds, and no thread is begun for that:
/// where many are cut at once the processors are the bound.
const BESIDE_LEAST: usize = 16_777_216;

/// The chunks of the content, and its digest. A thread of its own finds that meanwhile, where the content is
/// large. The one error is running out of memory.
pub fn cut_and_digest<R: Threads>(
    rt: &R,
    alloc: Global,
    content: &[u8],
) -> Result<(Items<Chunk>, [u8; 20]), AllocError>
    ensures chunks { IfOk result (λ found. found.0 ≡ chunks_of content.now) }
    ensures digest { IfOk result (λ found. found.1 ≡ sha1 content.now) }
{
    if content.len() < BESIDE_LEAST {
        let chunks = cut(alloc, content)?;
        return Ok((chunks, digest(content)));
    }
    let (whole, chunks) = join(
        rt,
        move || -> [u8; 20]
            ensures { result ≡ sha1 content.entry.now }
        { digest(content) },
        move || cut(alloc, content),
    );
    let chunks = chunks?;
    Ok((chunks, whole))
}

/// What the search for ends finds are the ends of the content, as the least places where its chunks
/// may end, no other list is, and the chunks of the content are those between them.
pub fn ends_law()
    ensures found { (content : List ℕ) → AreEnds content (ends content) }
    ensures only { (content es : List ℕ) → AreEnds content es → es ≡ ends content }
    ensures chunks { (content : List ℕ) → chunks_of content ≡ chunks_between content 0 (ends content) }
{}
