//! The front of a content that is still coming, which is hashed while more comes.

ghost use Rattle.std.specs.Prelude.{◌≡◌, ◌++◌, ◌≤◌, IfOk, List, OnErr, OnOk, ℕ, [], drop, length, true};
ghost use Rattle.sha1.specs.Sha1.{Holds, sha1};

use sha1::Sha1;
use std::alloc::{AllocError, Global};
use std::marker::Model;

/// The front of a content, of which some bytes were hashed by now. Contracts see the front's bytes.
pub struct Ahead {
    bytes: Vec<u8>,
    /// The digest under way of the first so many of them.
    hasher: Sha1,
    hashed: usize,
}

/// By hand, so that the crates above prove nothing of how the parts are dropped.
impl Drop for Ahead {
    fn drop(self) {
        let Ahead {
            bytes,
            hasher,
            hashed: _,
        } = self;
        drop(bytes);
        drop(hasher);
    }
}

impl Model for Ahead {
    ghost use Rattle.std.specs.Prelude.{List, ℕ, ◌≤◌, length, take};
    ghost use Rattle.sha1.specs.Sha1.{Holds};

    ghost Value = { List ℕ };

    ghost view = { λ a. a.bytes.items };

    ghost invariant = { λ a. (a.hashed ≤ length a.bytes.items) × Holds a.hasher (take a.hashed a.bytes.items) };
}

/// Whether a content begins with these bytes.
#[tactic(auto, using(crate::proofs::Same::front_same))]
fn begins_with(content: &[u8], front: &[u8]) -> bool
    ensures fits { result ≡ true → length front.now ≤ length content.now }
    ensures same { result ≡ true → front.now ++ drop (length front.now) content.now ≡ content.now }
{
    if content.len() < front.len() {
        return false;
    }
    &content[..front.len()] == front
}

/// The digest of what was hashed with the rest behind it.
fn finished(hasher: Sha1, rest: &[u8]) -> [u8; 20]
    ensures { (m : List ℕ) → Holds hasher m → result ≡ sha1 (m ++ rest.now) }
{
    let mut hasher = hasher;
    hasher.update(rest);
    hasher.finalize()
}

impl Ahead {
    /// No byte, and room for so many. The one error is running out of memory.
    pub fn new(alloc: Global, size: usize) -> Result<Ahead, AllocError>
        ensures { IfOk result (λ ahead. ahead ≡ []) }
    {
        Ok(Ahead {
            bytes: Vec::with_capacity(alloc, size)?,
            hasher: Sha1::new(),
            hashed: 0,
        })
    }

    /// How many bytes it has.
    pub fn len(&self) -> usize
        ensures { result ≡ length self.now }
    {
        self.bytes.len()
    }

    /// More of the content, behind what is there. The one error is running out of memory, and changes nothing.
    pub fn add(&mut self, more: &[u8]) -> Result<(), AllocError>
        ensures ok { OnOk result (self.new ≡ self.old ++ more.now) }
        ensures err { OnErr result (self.new ≡ self.old) }
    {
        self.bytes.extend_from_slice(more)
    }

    /// All bytes that are there are hashed.
    pub fn hash(&mut self)
        ensures { self.new ≡ self.old }
    {
        self.hasher.update(&self.bytes[self.hashed..]);
        self.hashed = self.bytes.len();
    }

    /// The digest of a content. Where it begins with what was hashed, only the rest of it is hashed now.
    pub fn digest_of(self, content: &[u8]) -> [u8; 20]
        ensures { result ≡ sha1 content.now }
    {
        let Ahead {
            bytes,
            hasher,
            hashed,
        } = self;
        if begins_with(content, &bytes[..hashed]) {
            finished(hasher, &content[hashed..])
        } else {
            chunk_cut::digest(content)
        }
    }
}
