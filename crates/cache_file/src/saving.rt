//! Writing a cache file: `saved` of `specs/Saved.antt`. `specs/Filling.antt` says what is written while
//! there is room.

ghost use Rattle.std.specs.Prelude.{◌≡◌, ◌∷◌, [], ◌++◌, IfOk};
ghost use Rattle.limits.specs.declared.TheConstants.{FILE_MOST};
ghost use Rattle.chunk_cut.specs.Places.{chunk_bytes};
ghost use Rattle.cache_file.specs.Filling.{Puts, written_of};
ghost use Rattle.cache_file.specs.Items.{spelled};
ghost use Rattle.cache_file.specs.Saved.{given_file, pieces_of, pieces_kept, pieces_in, taken};

use chunk_cut::chunk::Chunk;
use client_cache::cache::Cache;
use lb_base::items::Bytes;
use limits::FILE_MOST;
use std::alloc::{AllocError, Global};
use std::collections::BTreeSet;
use xdr_codec::writer::Writer;

/// The id under which a client keeps what a cache file gave.
const GIVEN_FILE: u64 = 0;

/// What was written so far, for how many bytes there is room, and the digests of what was written.
pub struct Saving {
    writer: Writer,
    room: u64,
    seen: BTreeSet<[u8; 20]>,
}

// By hand: docs/proving/dropping.md.
impl Drop for Saving {
    fn drop(self) {
        let Saving {
            writer,
            room: _,
            seen,
        } = self;
        drop(writer);
        drop(seen);
    }
}

/// How many bytes an item takes in the file: its number, its bytes, and zeros up to a multiple of four.
fn taken(item: &[u8]) -> u64
    ensures { result ≡ taken item.now }
{
    let len = item.len() as u64;
    4 + len + (4 - len % 4) % 4
}

/// The bytes of a chunk of the content.
fn chunk_bytes<'a>(content: &'a [u8], chunk: &Chunk) -> &'a [u8]
    ensures { result.now ≡ chunk_bytes content.now chunk.now }
{
    let start = chunk.start.min(content.len() as u64) as usize;
    let rest = &content[start..];
    let len = chunk.len.min(rest.len() as u64) as usize;
    &rest[..len]
}

impl Saving {
    /// Nothing yet, and room for as much as a cache file may have. It takes no memory.
    pub fn new(alloc: Global) -> Saving
        ensures { (result.writer ≡ []) × (result.room ≡ FILE_MOST) × (result.seen.keys ≡ []) }
    {
        Saving {
            writer: Writer::new(alloc),
            room: FILE_MOST,
            seen: BTreeSet::new(alloc),
        }
    }

    /// The bytes that were written. It takes no memory.
    pub fn done(self) -> Bytes
        ensures { result ≡ self.writer }
    {
        let Saving {
            writer,
            room: _,
            seen,
        } = self;
        drop(seen);
        writer.done()
    }

    /// Writes an item, where none with its digest was written and there is room for it; says whether there
    /// was. The one error is running out of memory.
    #[tactic(auto, using(crate::proofs::Filling::by_item))]
    fn item(&mut self, item: &[u8]) -> Result<bool, AllocError>
        ensures { IfOk result (λ goes. Puts self.old (item.now ∷ []) goes self.new) }
    {
        let digest = chunk_cut::digest(item);
        if self.seen.contains(&digest) {
            return Ok(true);
        }
        let taken = taken(item);
        if taken > self.room {
            return Ok(false);
        }
        self.seen.insert(digest)?;
        self.writer.opaque(item)?;
        self.room -= taken;
        Ok(true)
    }

    /// Writes the chunks of a content, as many as there is room for; says whether that was for all.
    fn content(&mut self, alloc: Global, content: &[u8]) -> Result<bool, AllocError>
        ensures { IfOk result (λ goes. Puts self.old (pieces_of content.now) goes self.new) }
    {
        let chunks = chunk_cut::cut(alloc, content)?;
        for chunk in chunks.as_slice() {
            if !self.item(chunk_bytes(content, chunk))? {
                return Ok(false);
            }
        }
        Ok(true)
    }

    /// Writes what is kept under an id: nothing of what a cache file gave, whose items are written as they are.
    #[tactic(auto, using(crate::proofs::Filling::none))]
    fn kept(&mut self, alloc: Global, file: u64, content: &[u8]) -> Result<bool, AllocError>
        ensures { IfOk result (λ goes. Puts self.old (pieces_kept (file, content.now)) goes self.new) }
    {
        if file == GIVEN_FILE {
            return Ok(true);
        }
        self.content(alloc, content)
    }

    /// Writes the chunks of all contents that are kept, each once, as many as there is room for; says whether
    /// that was for all.
    fn contents(&mut self, alloc: Global, cache: &Cache) -> Result<bool, AllocError>
        ensures { IfOk result (λ goes. Puts self.old (pieces_in cache.now) goes self.new) }
    {
        let mut place = 0;
        'contents: while let Some((file, content)) = cache.at(place) {
            if !self.kept(alloc, file, content.as_slice())? {
                return Ok(false);
            }
            place += 1;
        }
        Ok(true)
    }

    /// Writes these items, each once, as many as there is room for; says whether that was for all.
    fn items(&mut self, items: &[Bytes]) -> Result<bool, AllocError>
        ensures { IfOk result (λ goes. Puts self.old items.now goes self.new) }
    {
        for item in items {
            if !self.item(item.as_slice())? {
                return Ok(false);
            }
        }
        Ok(true)
    }

    /// Writes the chunks of all contents that are kept, and behind them the items that stood there.
    pub fn all(&mut self, alloc: Global, cache: &Cache, old: &[Bytes]) -> Result<(), AllocError>
        ensures { IfOk result (λ _. self.new.writer ≡ self.old.writer ++ spelled (written_of self.old (pieces_in cache.now ++ old.now))) }
    {
        if self.contents(alloc, cache)? {
            self.items(old)?;
        }
        Ok(())
    }
}
