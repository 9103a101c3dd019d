//! What the crates above read of a client's fields, and how they change one of them alone.

ghost use Rattle.limits.specs.declared.TheConstants.{FILE_MOST};
ghost use Rattle.std.specs.Prelude.{◌≡◌, ◌≤◌, length, is_some, None, false, true};
ghost use Rattle.chunk_index.specs.Index.{key_of, place_of};
ghost use Rattle.chunk_index.specs.Places.{found_all, indexed, LeavesSome};
ghost use Rattle.client_cache.specs.Cache.{with_content};
ghost use Rattle.client_state.specs.State.{waiting_of};
ghost use Rattle.client_state.specs.View.{state_of, IsHeld, IsSound, IsThere};

use crate::state::ClientState;
use crate::task::Task;
use chunk_cut::chunk::Chunk;
use chunk_index::place::Place;
use client_cache::cache::Cache;
use cut_bytes::CutBytes;
use wire::message::Waiting;

impl ClientState {
    /// Whether an operation is under way.
    pub fn is_busy(&self) -> bool
        ensures { result ≡ is_some self.now.task }
    {
        self.task.is_some()
    }

    /// The operation under way is taken out, if there is one: while an answer is looked at. Its calls stand as
    /// they stood.
    pub fn take_task(&mut self) -> Option<Task>
        requires { IsSound self.old }
        ensures task { result ≡ self.old.task }
        ensures rest { self.new ≡ record self.old { task = None } }
        ensures held { IsHeld self.new }
    {
        self.task.take()
    }

    /// The reading of its clock at the last command or message, in milliseconds.
    pub fn clock(&self) -> u64
        ensures { result ≡ self.now.clock }
    {
        self.clock
    }

    /// What is kept of files.
    pub fn kept(&self) -> &Cache
        ensures { result.now ≡ self.now.cache }
    {
        &self.cache
    }

    /// The content of a file is kept in a version, in place of the one that was kept. It takes no memory: the
    /// file has an entry.
    pub fn keep(&mut self, file: u64, version: u64, content: CutBytes)
        requires held { IsHeld self.old }
        requires there { IsThere self.old.cache file }
        requires small { length content ≤ FILE_MOST }
        ensures kept { self.new ≡ record self.old { cache = with_content self.old.cache file version content } }
        ensures held { IsHeld self.new }
    {
        self.cache.keep_cut(file, version, content);
    }

    /// Where the index has the bytes with this digest, among what is kept. No pair of the index moves.
    pub fn place_of(&self, digest: &[u8]) -> Option<Place>
        requires { 8 ≤ length digest.now }
        ensures { result ≡ place_of self.now.index.pairs (key_of digest.now) }
    {
        self.index.peek(digest)
    }

    /// The pairs of these chunks go to the front of the index, those that it has.
    pub fn find_all(&mut self, chunks: &[Chunk])
        ensures { self.new ≡ record self.old { index = found_all self.old.index chunks.now } }
    {
        chunk_index::places::find_all(&mut self.index, chunks);
    }

    /// The places of a file's chunks enter the index, but those for which memory runs out; says whether it was.
    pub fn enter(&mut self, file: u64, chunks: &[Chunk]) -> bool
        ensures rest { self.new ≡ record self.old { index = self.new.index } }
        ensures all { result ≡ false → self.new.index ≡ indexed self.old.index file chunks.now }
        ensures lacks { result ≡ true → LeavesSome self.old.index file chunks.now self.new.index }
    {
        chunk_index::places::enter(&mut self.index, file, chunks)
    }

    /// The xid of the next call.
    pub fn next_xid(&self) -> u32
        ensures { result ≡ self.now.next_xid }
    {
        self.next_xid
    }

    /// The version of LBFS that its calls are of.
    pub fn lbfs(&self) -> u32
        ensures { result ≡ self.now.waiting.lbfs }
    {
        self.waiting.lbfs
    }

    /// What may come: answers to the calls that wait, those of ended operations and attempts too.
    pub fn waiting(&self) -> &Waiting
        requires { IsSound self.now }
        ensures { result.now ≡ waiting_of (state_of self.now) }
    {
        &self.waiting
    }
}
