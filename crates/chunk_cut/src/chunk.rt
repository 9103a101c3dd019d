//! Chunks, as `specs/Chunks.antt` lists them.

ghost use Rattle.std.specs.Prelude.{◌≡◌, ◌++◌, OnOk, OnErr};
ghost use Rattle.chunk_cut.specs.Chunks.{listed};

use digests::Dig;
use lb_base::items::Items;
use std::alloc::AllocError;

/// A chunk of a content.
#[derive(Clone, Copy)]
pub struct Chunk {
    /// Where it begins, in bytes from the start of the content.
    pub start: u64,
    /// How many bytes it has, at most 65,536.
    pub len: u64,
    /// The digest of its bytes, by which it is known.
    pub digest: Dig,
}

/// Adds the chunk that there may be to the list. The one error is running out of memory, and the
/// list then stays as it was.
pub(crate) fn list(chunks: &mut Items<Chunk>, chunk: Option<Chunk>) -> Result<(), AllocError>
    ensures ok { OnOk result (chunks.new ≡ chunks.old ++ listed chunk) }
    ensures err { OnErr result (chunks.new ≡ chunks.old) }
{
    if let Some(chunk) = chunk {
        chunks.push(chunk)?;
    }
    Ok(())
}
