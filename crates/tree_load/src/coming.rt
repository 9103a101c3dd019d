//! Records on their way into a tree, whose contents several threads cut into chunks.

ghost use Rattle.std.specs.Prelude.{◌≡◌, ℕ, ◌<◌, length, slice_index_or, IfOk, IfSome};
ghost use Rattle.chunk_cut.specs.Chunks.{chunks_of};
ghost use Rattle.store.specs.declared.record.Kept.{Kept};
ghost use Rattle.tree_load.specs.Making.{bytes_of};

use chunk_cut::chunk::Chunk;
use lb_base::items::Items;
use std::alloc::{AllocError, Global};
use std::marker::Model;
use std::thread;
use std::thread::Threads;
use store::record::Kept;

/// How many threads cut at most. The records are dealt out among them evenly, contents behind all else; so
/// there are more than processors, or some of these would stand idle.
const CUTTERS: usize = 16;

/// A record, and the chunks of its content, where they are known. Contracts see the record.
pub struct Coming {
    one: Kept,
    chunks: Option<Items<Chunk>>,
}

// By hand: docs/proving/dropping.md.
impl Drop for Coming {
    fn drop(self) {
        let Coming { one, chunks } = self;
        drop(one);
        drop(chunks);
    }
}

impl Model for Coming {
    ghost use Rattle.std.specs.Prelude.{◌≡◌, IfSome};
    ghost use Rattle.chunk_cut.specs.Chunks.{chunks_of};
    ghost use Rattle.store.specs.declared.record.Kept.{Kept};
    ghost use Rattle.tree_load.specs.Making.{bytes_of};

    ghost Value = { Kept };

    ghost view = { λ c. c.one };

    ghost invariant = { λ c. IfSome c.chunks (λ chunks. chunks ≡ chunks_of (bytes_of c.one)) };
}

impl Coming {
    /// A record of which nothing is known.
    fn new(one: Kept) -> Coming
        ensures { result ≡ one }
    {
        Coming { one, chunks: None }
    }

    /// Cuts a content into its chunks, where there is one. Where memory runs out they stay unknown.
    fn cut(&mut self, alloc: Global)
        ensures { self.new ≡ self.old }
    {
        if let Kept::Content(content) = &self.one {
            self.chunks = chunk_cut::cut(alloc, content.bytes.as_slice()).ok();
        }
    }

    /// The record, and what is known of its content's chunks.
    pub fn into_parts(self) -> (Kept, Option<Items<Chunk>>)
        ensures record { result.0 ≡ self }
        ensures chunks { IfSome result.1 (λ chunks. chunks ≡ chunks_of (bytes_of self)) }
    {
        let Coming { one, chunks } = self;
        (one, chunks)
    }
}

/// Cuts the contents, each once.
fn cut_each<R: Threads + Sync>(rt: &R, alloc: Global, coming: &mut [Coming])
    ensures len { length coming.new ≡ length coming.old }
    ensures each { (i : ℕ) (d : Kept) → i < length coming.old → slice_index_or coming.new i d ≡ slice_index_or coming.old i d }
{
    thread::for_each_mut(
        rt,
        coming,
        CUTTERS,
        &|_place, one: &mut Coming| one.cut(alloc),
    );
}

/// These records, of whose contents the chunks are known where there was memory for them. The one error
/// is running out of memory.
pub fn cut_all<R: Threads + Sync>(
    rt: &R,
    alloc: Global,
    records: Vec<Kept>,
) -> Result<Vec<Coming>, AllocError>
    ensures { IfOk result (λ v. v.items ≡ records.items) }
{
    let mut coming = Vec::with_capacity(alloc, records.len())?;
    for one in records {
        coming.push(Coming::new(one))?;
    }
    cut_each(rt, alloc, coming.as_mut_slice());
    Ok(coming)
}
