//! The text that lists the chunks of a content: `cut_text` of `specs/Output.antt`.

ghost use Rattle.std.specs.Prelude.{◌≡◌, ◌++◌, List, length, OnOk, IfOk, string_bytes, flat_map};
ghost use Rattle.lbfs_run.specs.Output.{chunk_line, cut_text};

use chunk_cut::chunk::Chunk;
use chunk_cut::cut;
use lb_base::items::{Bytes, Items};
use std::alloc::{AllocError, Global};
use std::fmt::Write;

/// The line of a chunk.
fn put_chunk(alloc: Global, out: &mut String, chunk: &Chunk) -> Result<(), AllocError>
    ensures { OnOk result (string_bytes out.new ≡ string_bytes out.old ++ chunk_line chunk.now) }
{
    let (start, len) = (chunk.start, chunk.len);
    let digest = hex::encode(alloc, chunk.digest.as_slice())?;
    write!(out, "chunk {start} {len} {digest}\n")
}

/// The lines of all chunks.
fn put_chunks(alloc: Global, out: &mut String, chunks: &[Chunk]) -> Result<(), AllocError>
    ensures { OnOk result (string_bytes out.new ≡ string_bytes out.old ++ flat_map chunk_line chunks.now) }
{
    for chunk in chunks {
        put_chunk(alloc, out, chunk)?;
    }
    Ok(())
}

/// A line for each chunk of the content, with where it begins, how many bytes it has and their
/// SHA-1 digest, and a last line with the count of chunks and that of all bytes. The one error is
/// running out of memory.
pub fn cut_text(alloc: Global, content: &[u8]) -> Result<Bytes, AllocError>
    ensures { IfOk result (λ text. text ≡ cut_text content.now) }
{
    let chunks = cut(alloc, content)?;
    let mut out = String::new(alloc);
    put_chunks(alloc, &mut out, chunks.as_slice())?;
    let (count, bytes) = (chunks.len(), content.len());
    write!(out, "chunks {count} bytes {bytes}\n")?;
    Ok(Items::from_vec(out.into_bytes()))
}
