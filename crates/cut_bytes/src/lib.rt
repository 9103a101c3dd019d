//! Bytes with several owners, and what was found of them before: their chunks, and their digest. Whoever
//! holds a lock while a content is stored so neither cuts nor hashes it there, and a content that is kept is
//! hashed once.
//!
//! Contracts see the list of the bytes alone, so nothing that is told depends on what was found before.
#![tactic(auto)]

ghost use Rattle.std.specs.Prelude.{◌≡◌, [], length, IfOk};
ghost use Rattle.sha1.specs.Sha1.{sha1};
ghost use Rattle.chunk_cut.specs.Chunks.{chunks_of};

pub mod ahead;

use crate::ahead::Ahead;
use chunk_cut::chunk::Chunk;
use lb_base::items::Items;
use shared_bytes::SharedBytes;
use std::alloc::{AllocError, Global};
use std::marker::Model;
use std::thread::Threads;

/// One owner of some bytes, with their chunks and their digest where these were found before. Contracts
/// see the list of the bytes.
pub struct CutBytes {
    bytes: SharedBytes,
    chunks: Option<Items<Chunk>>,
    digest: Option<[u8; 20]>,
}

/// By hand, so that the crates above prove nothing of how the parts are dropped.
impl Drop for CutBytes {
    fn drop(self) {
        let CutBytes {
            bytes,
            chunks,
            digest: _digest,
        } = self;
        drop(bytes);
        drop(chunks);
    }
}

impl Model for CutBytes {
    ghost use Rattle.std.specs.Prelude.{List, ℕ, ◌≡◌, IfSome};
    ghost use Rattle.sha1.specs.Sha1.{sha1};
    ghost use Rattle.chunk_cut.specs.Chunks.{chunks_of};

    ghost Value = { List ℕ };

    ghost view = { λ c. c.bytes };

    ghost invariant = { λ c. (IfSome c.chunks (λ k. k ≡ chunks_of c.bytes)) × (IfSome c.digest (λ d. d ≡ sha1 c.bytes)) };
}

impl CutBytes {
    /// No byte. It takes no memory.
    pub fn empty() -> CutBytes
        ensures { result ≡ [] }
    {
        CutBytes::whole(SharedBytes::empty())
    }

    /// Bytes of which nothing was found. It takes no memory.
    pub fn whole(bytes: SharedBytes) -> CutBytes
        ensures { result ≡ bytes }
    {
        CutBytes {
            bytes,
            chunks: None,
            digest: None,
        }
    }

    /// Bytes that are cut and hashed now, and so not again: in two threads, where they are many. The one error
    /// is running out of memory.
    pub fn cut<R: Threads>(
        rt: &R,
        alloc: Global,
        bytes: SharedBytes,
    ) -> Result<CutBytes, AllocError>
        ensures { IfOk result (λ cut. cut ≡ bytes) }
    {
        let (chunks, digest) = chunk_cut::cut_and_digest(rt, alloc, bytes.as_slice())?;
        Ok(CutBytes {
            bytes,
            chunks: Some(chunks),
            digest: Some(digest),
        })
    }

    /// These bytes with their digest, which was found so.
    fn with_digest(self, found: [u8; 20]) -> CutBytes
        requires { found ≡ sha1 self }
        ensures { result ≡ self }
    {
        let CutBytes {
            bytes,
            chunks,
            digest: _digest,
        } = self;
        CutBytes {
            bytes,
            chunks,
            digest: Some(found),
        }
    }

    /// These bytes with their digest, which is found now where it wasn't before, and so not again. It takes no
    /// memory.
    pub fn hashed(self) -> CutBytes
        ensures { result ≡ self }
    {
        let found = self.digest();
        self.with_digest(found)
    }

    /// As `hashed`, of bytes whose front was hashed while they came, if it was.
    pub fn hashed_by(self, ahead: Option<Ahead>) -> CutBytes
        ensures { result ≡ self }
    {
        match ahead {
            Some(ahead) => {
                let found = ahead.digest_of(self.as_slice());
                self.with_digest(found)
            }
            None => self.hashed(),
        }
    }

    /// These bytes, with what was found of others ahead where those are the same.
    #[tactic(auto, using(crate::proofs::Same::same))]
    pub fn with(self, found: CutBytes) -> CutBytes
        ensures { result ≡ self }
    {
        if found.as_slice() == self.as_slice() {
            return found;
        }
        self
    }

    /// An owner of the bytes alone, of which others can be made.
    pub fn shared(&self) -> &SharedBytes
        ensures { result.now ≡ self.now }
    {
        &self.bytes
    }

    /// One more owner of the bytes, with their digest where it was found; the chunks stay behind. It copies no
    /// byte and takes no memory; the one error is that of `SharedBytes`.
    pub fn share(&self) -> Result<CutBytes, AllocError>
        ensures { IfOk result (λ shared. shared ≡ self.now) }
    {
        let bytes = self.bytes.share()?;
        Ok(CutBytes {
            bytes,
            chunks: None,
            digest: self.digest,
        })
    }

    /// The bytes as a slice.
    pub fn as_slice(&self) -> &[u8]
        ensures { result.now ≡ self.now }
    {
        self.bytes.as_slice()
    }

    /// The number of bytes.
    pub fn len(&self) -> usize
        ensures { result ≡ length self.now }
    {
        self.bytes.len()
    }

    /// A copy of the chunks, which are found now where they weren't ahead. The one error is running out of memory.
    pub fn chunks(&self, alloc: Global) -> Result<Items<Chunk>, AllocError>
        ensures { IfOk result (λ chunks. chunks ≡ chunks_of self.now) }
    {
        match &self.chunks {
            Some(chunks) => chunks.try_clone(alloc),
            None => chunk_cut::cut(alloc, self.bytes.as_slice()),
        }
    }

    /// The digest of all bytes, which is found now where it wasn't ahead.
    pub fn digest(&self) -> [u8; 20]
        ensures { result ≡ sha1 self.now }
    {
        match self.digest {
            Some(digest) => digest,
            None => chunk_cut::digest(self.bytes.as_slice()),
        }
    }
}
