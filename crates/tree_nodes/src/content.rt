//! The content of a file, with its chunks: those of `chunk_cut/specs/Chunks.antt`.

ghost use Rattle.std.specs.Prelude.{◌≡◌, ◌↔◌, [], length, IsTrue, IfOk};
ghost use Rattle.sha1.specs.Sha1.{sha1};
ghost use Rattle.chunk_cut.specs.Chunks.{chunks_of};

use chunk_cut::chunk::Chunk;
use lb_base::items::Items;
use shared_bytes::SharedBytes;
use std::alloc::{AllocError, Global};
use std::marker::Model;
use std::thread::Threads;

/// The bytes of a file, cut into chunks once, when they came. A store may own them too. Contracts see
/// the bytes.
pub struct Content {
    bytes: SharedBytes,
    chunks: Items<Chunk>,
    /// The digest of all bytes, where they were hashed when they came.
    digest: Option<[u8; 20]>,
}

impl Drop for Content {
    fn drop(self) {
        let Content {
            bytes,
            chunks,
            digest: _digest,
        } = self;
        drop(bytes);
        drop(chunks);
    }
}

impl Model for Content {
    ghost use Rattle.std.specs.Prelude.{List, ℕ, ◌≡◌, IfSome};
    ghost use Rattle.sha1.specs.Sha1.{sha1};
    ghost use Rattle.chunk_cut.specs.Chunks.{chunks_of};

    ghost Value = { List ℕ };

    ghost view = { λ c. c.bytes };

    ghost invariant = { λ c. (c.chunks ≡ chunks_of c.bytes) × IfSome c.digest (λ d. d ≡ sha1 c.bytes) };
}

impl Content {
    /// The content of no bytes. It takes no memory.
    pub fn empty(alloc: Global) -> Content
        ensures { result ≡ [] }
    {
        Content {
            bytes: SharedBytes::empty(),
            chunks: Items::new(alloc),
            digest: Some(chunk_cut::digest(&[])),
        }
    }

    /// A content of these bytes. The one error is running out of memory.
    pub fn new(alloc: Global, bytes: SharedBytes) -> Result<Content, AllocError>
        ensures { IfOk result (λ c. c ≡ bytes) }
    {
        let chunks = chunk_cut::cut(alloc, bytes.as_slice())?;
        Ok(Content::with_chunks(bytes, chunks))
    }

    /// As `new`, and the bytes are cut and hashed in two threads, where they are many.
    pub fn ahead<R: Threads>(
        rt: &R,
        alloc: Global,
        bytes: SharedBytes,
    ) -> Result<Content, AllocError>
        ensures { IfOk result (λ c. c ≡ bytes) }
    {
        let (chunks, digest) = chunk_cut::cut_and_digest(rt, alloc, bytes.as_slice())?;
        Ok(Content {
            bytes,
            chunks,
            digest: Some(digest),
        })
    }

    /// A content of these bytes, whose chunks were cut before, and which is to be told of: all bytes are
    /// hashed. It takes no memory.
    pub fn with_chunks(bytes: SharedBytes, chunks: Items<Chunk>) -> Content
        requires { chunks ≡ chunks_of bytes }
        ensures { result ≡ bytes }
    {
        let digest = chunk_cut::digest(bytes.as_slice());
        Content {
            bytes,
            chunks,
            digest: Some(digest),
        }
    }

    /// The same of a content that was told of before, as one that a store gives: its bytes are hashed only
    /// where its digest is asked for. It takes no memory.
    pub fn loaded(bytes: SharedBytes, chunks: Items<Chunk>) -> Content
        requires { chunks ≡ chunks_of bytes }
        ensures { result ≡ bytes }
    {
        Content {
            bytes,
            chunks,
            digest: None,
        }
    }

    /// The bytes.
    pub fn as_slice(&self) -> &[u8]
        ensures { result.now ≡ self.now }
    {
        self.bytes.as_slice()
    }

    /// The number of bytes.
    pub fn len(&self) -> usize
        ensures { result ≡ length self.now }
    {
        self.bytes.len()
    }

    /// Whether there is no byte.
    pub fn is_empty(&self) -> bool
        ensures { IsTrue result ↔ (self.now ≡ []) }
    {
        self.as_slice().is_empty()
    }

    /// The chunks, in order, each with its start.
    pub fn chunks(&self) -> &[Chunk]
        ensures { result.now ≡ chunks_of self.now }
    {
        self.chunks.as_slice()
    }

    /// The SHA-1 digest of all bytes.
    pub fn digest(&self) -> [u8; 20]
        ensures { result ≡ sha1 self.now }
    {
        match self.digest {
            Some(digest) => digest,
            None => chunk_cut::digest(self.bytes.as_slice()),
        }
    }
}
