//! Contents that come in pieces: `IsFed` of `specs/Cutting.antt`, and `complete` and `rest` of
//! `specs/Chunks.antt`.

ghost use Rattle.std.specs.Prelude.{◌≡◌, ℕ, ◌+◌, ◌^◌, ◌<◌, ◌≤◌, List, [], ◌++◌, length, take, OnOk, OnErr, IfOk};
ghost use Rattle.sha1.specs.Sha1.{Holds, sha1};
ghost use Rattle.chunk_cut.specs.Chunks.{complete, rest, listed};
ghost use Rattle.chunk_cut.specs.Cutting.{IsFed, fed};

use crate::chunk::{self, Chunk};
use crate::scan;
use digests::Dig;
use lb_base::items::Items;
use rabin_window::Window;
use sha1::Sha1;
use std::alloc::{AllocError, Global};
use std::mem;

/// Cuts a content that comes in pieces. It keeps a window, a digest under way and two counts, and
/// none of the bytes. That a cutter was fed a content, clauses say by `IsFed`.
#[derive(Clone, Drop)]
pub struct Cutter {
    window: Window,
    // The digest of the chunk under way.
    hasher: Sha1,
    // Where the chunk under way begins, and how many bytes it has so far.
    start: u64,
    len: u64,
}

impl Cutter {
    /// A cutter that was fed no bytes.
    pub fn new() -> Cutter
        ensures empty { IsFed result [] }
        ensures none { fed result ≡ 0 }
    {
        Cutter {
            window: Window::new(),
            hasher: Sha1::new(),
            start: 0,
            len: 0,
        }
    }

    /// How many bytes it was fed.
    pub fn fed(&self) -> u64
        requires { fed self.now < 2 ^ 64 }
        ensures { result ≡ fed self.now }
    {
        self.start + self.len
    }

    /// Takes the next bytes of the content, and gives the chunks that end in them. All bytes that it
    /// was fed and these are to be fewer than 2^64. The one error is running out of memory, and the cutter
    /// then stays as it was: the work is done on a copy.
    pub fn feed(&mut self, alloc: Global, piece: &[u8]) -> Result<Items<Chunk>, AllocError>
        requires { fed self.old + length piece.now < 2 ^ 64 }
        ensures chunks { (content : List ℕ) → IsFed self.old content → IfOk result (λ chunks. complete (content ++ piece.now) ≡ complete content ++ chunks) }
        ensures content { (content : List ℕ) → IsFed self.old content → OnOk result (IsFed self.new (content ++ piece.now)) }
        ensures count { OnOk result (fed self.new ≡ fed self.old + length piece.now) }
        ensures err { OnErr result (self.new ≡ self.old) }
    {
        let mut cutter = self.clone()?;
        let mut chunks = Items::new(alloc);
        let mut taken = 0;
        'chunks: while taken < piece.len() {
            let (more, ended) = cutter.advance(&piece[taken..]);
            taken += more;
            chunk::list(&mut chunks, ended)?;
        }
        *self = cutter;
        Ok(chunks)
    }

    /// The last chunk of the content; none where no byte is left.
    pub fn finish(self) -> Option<Chunk>
        ensures { (content : List ℕ) → IsFed self content → result ≡ rest content }
    {
        if self.len == 0 {
            return None;
        }
        Some(Chunk {
            start: self.start,
            len: self.len,
            digest: Dig::sha1(self.hasher.finalize()),
        })
    }

    /// Takes bytes up to the end of the chunk under way, or all where it goes on: how many, and the
    /// chunk if it ended.
    fn advance(&mut self, piece: &[u8]) -> (usize, Option<Chunk>)
        requires { fed self.old + length piece.now < 2 ^ 64 }
        ensures within { result.0 ≤ length piece.now }
        ensures some { 0 < length piece.now → 0 < result.0 }
        ensures count { fed self.new ≡ fed self.old + result.0 }
        ensures content { (content : List ℕ) → IsFed self.old content → IsFed self.new (content ++ take result.0 piece.now) }
        ensures chunk { (content : List ℕ) → IsFed self.old content → complete (content ++ take result.0 piece.now) ≡ complete content ++ listed result.1 }
    {
        match scan::find_end(&mut self.window, self.len, piece) {
            Some(count) => {
                self.hash(&piece[..count]);
                (count, Some(self.close()))
            }
            None => {
                self.hash(piece);
                (piece.len(), None)
            }
        }
    }

    /// Adds bytes to the chunk under way.
    fn hash(&mut self, bytes: &[u8])
        requires { fed self.old + length bytes.now < 2 ^ 64 }
        ensures counts { self.new ≡ record self.old { hasher = self.new.hasher; len = self.old.len + length bytes.now } }
        ensures digest { (chunk : List ℕ) → Holds self.old.hasher chunk → Holds self.new.hasher (chunk ++ bytes.now) }
    {
        self.hasher.update(bytes);
        self.len += bytes.len() as u64;
    }

    /// Ends the chunk under way, and begins the next.
    fn close(&mut self) -> Chunk
        requires { fed self.old < 2 ^ 64 }
        ensures counts { self.new ≡ record self.old { hasher = self.new.hasher; start = fed self.old; len = 0 } }
        ensures digest { Holds self.new.hasher [] }
        ensures chunk { (chunk : List ℕ) → Holds self.old.hasher chunk → result ≡ record { start = self.old.start; len = self.old.len; digest = sha1 chunk } }
    {
        let hasher = mem::replace(&mut self.hasher, Sha1::new());
        let chunk = Chunk {
            start: self.start,
            len: self.len,
            digest: Dig::sha1(hasher.finalize()),
        };
        self.start += self.len;
        self.len = 0;
        chunk
    }
}
