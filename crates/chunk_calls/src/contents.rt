//! The content that a temporary file comes to: its bytes, which have two owners, and its chunks, which
//! are cut while it lies in pieces. `whole_of` in `specs/Temps.antt` of `temp_files` says which bytes
//! these are.

ghost use Rattle.std.specs.Prelude.{◌≡◌, ◌<◌, ◌≤◌, ◌^◌, ◌++◌, length, is_some, Some, IfOk, OnOk, OnErr, IsTrue, true};
ghost use Rattle.chunk_cut.specs.Chunks.{chunks_of};
ghost use Rattle.temp_files.specs.Pieces.{size_most, all_bytes};
ghost use Rattle.temp_files.specs.Temps.{temp_at, without_temp, whole_of};

use chunk_cut::chunk::Chunk;
use chunk_cut::cutter::Cutter;
use hash_calls::call::Commit;
use lb_base::items::{Bytes, Items};
use shared_bytes::SharedBytes;
use std::alloc::{AllocError, Global};
use std::collections::BTreeMap;
use std::marker::Model;
use temp_files::temp::Temp;
use temp_files::temps::Temps;
use tree_nodes::content::Content;

/// A content that is needed twice, by the tree and by the store: its bytes have two owners. Contracts
/// see the content.
pub struct ContentPair {
    content: Content,
    copy: SharedBytes,
}

impl Drop for ContentPair {
    fn drop(self) {
        let ContentPair { content, copy } = self;
        drop(content);
        drop(copy);
    }
}

impl Model for ContentPair {
    ghost use Rattle.std.specs.Prelude.{List, ℕ, ◌≡◌};

    ghost Value = { List ℕ };

    ghost view = { λ p. p.content };

    ghost invariant = { λ p. p.copy ≡ p.content };
}

impl ContentPair {
    /// A content, and its bytes for the store.
    pub fn new(content: Content, copy: SharedBytes) -> ContentPair
        requires { copy ≡ content }
        ensures { result ≡ content }
    {
        ContentPair { content, copy }
    }

    /// How many bytes it has.
    pub fn len(&self) -> usize
        ensures { result ≡ length self.now }
    {
        self.content.len()
    }

    /// The content, and its bytes for the store.
    pub fn split(self) -> (Content, SharedBytes)
        ensures content { result.0 ≡ self }
        ensures copy { result.1 ≡ self }
    {
        let ContentPair { content, copy } = self;
        (content, copy)
    }
}

/// The chunks of a content that is held in parts: its first bytes, and pieces, one behind the other.
/// The one error is running out of memory.
fn cut_pieces(
    alloc: Global,
    front: &[u8],
    pieces: &BTreeMap<u64, Bytes>,
) -> Result<Items<Chunk>, AllocError>
    requires { length (front.now ++ all_bytes pieces.now.entries) < 2 ^ 64 }
    ensures { IfOk result (λ chunks. chunks ≡ chunks_of (front.now ++ all_bytes pieces.now.entries)) }
{
    let mut cutter = Cutter::new();
    let mut chunks = cutter.feed(alloc, front)?;
    for (_at, bytes) in pieces.iter() {
        let ended = cutter.feed(alloc, bytes.as_slice())?;
        chunks.extend_from_slice(ended.as_slice())?;
    }
    match cutter.finish() {
        Some(last) => {
            chunks.push(last)?;
            Ok(chunks)
        }
        None => Ok(chunks),
    }
}

/// Whether a content has exactly the bytes of a temporary file's pieces, which lie in one place then.
fn is_content_of(content: &Content, temp: &Temp) -> bool
    ensures { IsTrue result → content.now ≡ all_bytes temp.now.pieces }
{
    let (front, pieces) = temp.parts();
    pieces.is_empty() && front == content.as_slice()
}

/// Whether a content that was made ahead is the one that the temporary file comes to.
fn fits(content: &Content, temps: &Temps, session: u32, commit: &Commit) -> bool
    requires { is_some (whole_of (temp_at temps.now session commit.now.fd) commit.now.size) ≡ true }
    ensures { IsTrue result → Some content.now ≡ whole_of (temp_at temps.now session commit.now.fd) commit.now.size }
{
    match temps.find(session, commit.fd) {
        Some(temp) => is_content_of(content, temp),
        None => false,
    }
}

/// The temporary file ends, and its content is this one, which was made ahead. The one error is
/// running out of memory, and all then stays as it was.
fn take_ahead(
    temps: &mut Temps,
    content: Content,
    session: u32,
    commit: &Commit,
) -> Result<ContentPair, AllocError>
    requires size { commit.now.size ≤ size_most }
    requires same { Some content ≡ whole_of (temp_at temps.old session commit.now.fd) commit.now.size }
    ensures content { IfOk result (λ pair. pair ≡ content) }
    ensures ended { OnOk result (temps.new ≡ without_temp temps.old session commit.now.fd) }
    ensures err { OnErr result (temps.new ≡ temps.old) }
{
    match temps.take(session, commit.fd, commit.size) {
        Ok(Some(both)) => Ok(ContentPair::new(content, both.1)),
        Ok(None) => unreachable!(),
        Err(_) => Err(AllocError),
    }
}

/// The temporary file ends, and its content is cut and hashed here. Its chunks are cut while it stands,
/// so that memory is there for all before its first piece is dropped. The one error is running out of memory,
/// and all then stays as it was.
fn take_cut(
    alloc: Global,
    temps: &mut Temps,
    session: u32,
    commit: &Commit,
) -> Result<ContentPair, AllocError>
    requires size { commit.now.size ≤ size_most }
    requires whole { is_some (whole_of (temp_at temps.old session commit.now.fd) commit.now.size) ≡ true }
    ensures content { IfOk result (λ content. Some content ≡ whole_of (temp_at temps.old session commit.now.fd) commit.now.size) }
    ensures ended { OnOk result (temps.new ≡ without_temp temps.old session commit.now.fd) }
    ensures err { OnErr result (temps.new ≡ temps.old) }
{
    let Some(temp) = temps.find(session, commit.fd) else {
        unreachable!()
    };
    let (front, pieces) = temp.parts();
    let chunks = cut_pieces(alloc, front, pieces)?;
    match temps.take(session, commit.fd, commit.size) {
        Ok(Some(both)) => {
            let (bytes, copy) = both;
            let content = Content::with_chunks(bytes, chunks);
            Ok(ContentPair::new(content, copy))
        }
        Ok(None) => unreachable!(),
        Err(_) => Err(AllocError),
    }
}

/// The content that a temporary file comes to, with its chunks, and once more for the store. The
/// temporary file ends. Where `ahead` is that content it is taken, and nothing is cut and hashed; any
/// other is dropped. The one error is running out of memory, and all then stays as it was.
pub fn take_content(
    alloc: Global,
    temps: &mut Temps,
    ahead: Option<Content>,
    session: u32,
    commit: &Commit,
) -> Result<ContentPair, AllocError>
    requires size { commit.now.size ≤ size_most }
    requires whole { is_some (whole_of (temp_at temps.old session commit.now.fd) commit.now.size) ≡ true }
    ensures content { IfOk result (λ content. Some content ≡ whole_of (temp_at temps.old session commit.now.fd) commit.now.size) }
    ensures ended { OnOk result (temps.new ≡ without_temp temps.old session commit.now.fd) }
    ensures err { OnErr result (temps.new ≡ temps.old) }
{
    match ahead {
        Some(content) => {
            if fits(&content, temps, session, commit) {
                take_ahead(temps, content, session, commit)
            } else {
                drop(content);
                take_cut(alloc, temps, session, commit)
            }
        }
        None => take_cut(alloc, temps, session, commit),
    }
}
