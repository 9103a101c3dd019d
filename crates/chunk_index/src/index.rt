//! The index. `specs/Index.antt` says what each call makes of it.

ghost use Rattle.std.specs.Prelude.{◌≡◌, ◌≤◌, [], length, IfOk, OnOk, OnErr, IfErr};
ghost use Rattle.std.specs.NonZero.{non_zero_usize_get};
ghost use Rattle.chunk_index.specs.Index.{key_of, place_of, put, found, cleared};

use crate::place::Place;
use lru::LruCache;
use std::alloc::{AllocError, AllocFailed, Global};
use std::marker::Model;
use std::num::NonZeroUsize;

/// A digest's key: the number of its first eight bytes, the highest first.
pub type Key = u64;

/// A digest's key.
#[tactic(auto, unfolding(crate::specs::Index::key_of))]
pub fn key_of(digest: &[u8]) -> Key
    requires { 8 ≤ length digest.now }
    ensures { result ≡ key_of digest.now }
{
    u64::from_be_bytes([
        digest[0], digest[1], digest[2], digest[3], digest[4], digest[5], digest[6], digest[7],
    ])
}

/// Places by keys, the most recent pair first. A digest may be of any kind that has eight bytes at
/// least.
pub struct Index {
    pairs: LruCache<Key, Place>,
}

/// By hand, so that the crates above prove nothing of how the parts are dropped.
impl Drop for Index {
    fn drop(self) {
        let Index { pairs } = self;
        drop(pairs);
    }
}

impl Model for Index {
    ghost use Rattle.std.specs.Prelude.{◌≤◌, ◌<◌, length};
    ghost use Rattle.chunk_index.specs.Index.{Indexed};

    ghost Value = { Indexed };

    ghost view = { λ i. record { pairs = i.pairs.entries; capacity = i.pairs.cap } };

    ghost invariant = { λ i. (length i.pairs.entries ≤ i.pairs.cap) × (0 < i.pairs.cap) };
}

impl Index {
    /// An empty index, which holds at most so many pairs. It takes little memory at first, and more
    /// with the pairs that come. The one error is running out of memory.
    pub fn new(alloc: Global, capacity: NonZeroUsize) -> Result<Index, AllocError>
        ensures { IfOk result (λ index. index ≡ record { pairs = []; capacity = non_zero_usize_get capacity }) }
    {
        let pairs = LruCache::sparse(alloc, capacity)?;
        Ok(Index { pairs })
    }

    /// The number of pairs.
    pub fn len(&self) -> usize
        ensures len { result ≡ length self.now.pairs }
        ensures within { length self.now.pairs ≤ self.now.capacity }
    {
        self.pairs.len()
    }

    /// Puts the place of a chunk with this digest first, in place of the one that its key had, and
    /// drops the last pair where there are more than the capacity. The one error is running out of
    /// memory: it hands the pair back, and the index stays as it was.
    pub fn put(&mut self, digest: &[u8], place: Place) -> Result<(), AllocFailed<(Key, Place)>>
        requires { 8 ≤ length digest.now }
        ensures ok { OnOk result (self.new ≡ put self.old (key_of digest.now) place) }
        ensures err { OnErr result (self.new ≡ self.old) }
        ensures back { IfErr result (λ e. e.value ≡ (key_of digest.now, place)) }
    {
        self.forge(key_of(digest), place)
    }

    /// The same by a key alone.
    pub fn forge(&mut self, key: Key, place: Place) -> Result<(), AllocFailed<(Key, Place)>>
        ensures ok { OnOk result (self.new ≡ put self.old key place) }
        ensures err { OnErr result (self.new ≡ self.old) }
        ensures back { IfErr result (λ e. e.value ≡ (key, place)) }
    {
        self.pairs.put(key, place)?;
        Ok(())
    }

    /// The place of a chunk that may have this digest, whose pair goes first. It takes no memory.
    pub fn find(&mut self, digest: &[u8]) -> Option<Place>
        requires { 8 ≤ length digest.now }
        ensures place { result ≡ place_of self.old.pairs (key_of digest.now) }
        ensures order { self.new ≡ found self.old (key_of digest.now) }
    {
        self.pairs.get(&key_of(digest)).copied()
    }

    /// The place of a chunk that may have this digest; no pair moves. It takes no memory.
    pub fn peek(&self, digest: &[u8]) -> Option<Place>
        requires { 8 ≤ length digest.now }
        ensures { result ≡ place_of self.now.pairs (key_of digest.now) }
    {
        self.pairs.peek(&key_of(digest)).copied()
    }

    /// Drops all pairs. It takes no memory.
    pub fn clear(&mut self)
        ensures { self.new ≡ cleared self.old }
    {
        self.pairs.clear();
    }
}
