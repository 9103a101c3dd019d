//! Where the chunks of files stand in an index: the places that enter it, in order, and the chunks that
//! are looked up. `specs/Places.antt` says which.

ghost use Rattle.std.specs.Prelude.{◌≡◌, IfOk, true, false};
ghost use Rattle.chunk_index.specs.Index.{key_of, found};
ghost use Rattle.chunk_index.specs.Places.{no_index, with_chunk, indexed, LeavesSome, found_all};

use crate::index::Index;
use crate::place::Place;
use chunk_cut::chunk::Chunk;
use digests::Dig;
use limits::INDEX_MOST;
use std::alloc::{AllocError, Global};
use std::num::NonZeroUsize;

/// An index with no pairs. The one error is running out of memory.
pub fn empty(alloc: Global) -> Result<Index, AllocError>
    ensures { IfOk result (λ index. index ≡ no_index) }
{
    match NonZeroUsize::new(INDEX_MOST) {
        Some(most) => Index::new(alloc, most),
        None => unreachable!(),
    }
}

/// Puts the place of a chunk under the key of its digest, and says whether memory ran out: the
/// index then stays as it was.
fn is_left_out(index: &mut Index, file: u64, chunk: &Chunk) -> bool
    ensures put { result ≡ false → index.new ≡ with_chunk index.old file chunk.now }
    ensures same { result ≡ true → index.new ≡ index.old }
{
    let place = Place {
        file,
        offset: chunk.start,
        count: chunk.len,
    };
    index.put(chunk.digest.as_slice(), place).is_err()
}

/// Puts the places of chunks of a file, one after the other. A place for which memory runs out is
/// left out; says whether one was.
pub fn enter(index: &mut Index, file: u64, chunks: &[Chunk]) -> bool
    ensures all { result ≡ false → index.new ≡ indexed index.old file chunks.now }
    ensures lacks { result ≡ true → LeavesSome index.old file chunks.now index.new }
{
    let mut left_out = false;
    for chunk in chunks {
        if is_left_out(index, file, chunk) {
            left_out = true;
        }
    }
    left_out
}

/// The pair of a chunk that is looked up goes to the front, and no place enters. It takes no memory.
fn look_up(index: &mut Index, digest: &Dig)
    ensures { index.new ≡ found index.old (key_of digest.now) }
{
    let _place = index.find(digest.as_slice());
}

/// The pairs of these chunks go to the front, one after the other, and no place enters. It takes no
/// memory.
pub fn find_all(index: &mut Index, chunks: &[Chunk])
    ensures { index.new ≡ found_all index.old chunks.now }
{
    for chunk in chunks {
        look_up(index, &chunk.digest);
    }
}
