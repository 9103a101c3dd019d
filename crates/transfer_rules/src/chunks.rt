//! The chunks of a file, which are asked for in order, and what has come of them: `specs/Chunks.antt`.

ghost use Rattle.std.specs.Prelude.{◌≡◌, slice_get};
ghost use Rattle.transfer_rules.specs.Chunks.{all_came};

use chunk_cut::chunk::Chunk;

/// A copy of the chunk at this place, if it is there.
pub fn chunk_at(chunks: &[Chunk], place: usize) -> Option<Chunk>
    ensures { result ≡ slice_get chunks.now place }
{
    chunks.get(place).copied()
}

/// The chunk that comes next, where so many were asked for, in order.
pub fn next_chunk(chunks: &[Chunk], asked: usize) -> Option<Chunk>
    ensures { result ≡ slice_get chunks.now asked }
{
    chunk_at(chunks, asked)
}

/// Whether all has come: no call is under way, and of so many chunks all were asked for.
pub fn all_came<T>(under: &[T], asked: usize, count: usize) -> bool
    ensures { result ≡ all_came under.now asked count }
{
    asked == count && under.is_empty()
}
