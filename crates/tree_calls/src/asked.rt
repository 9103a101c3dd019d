//! What a call comes to: `specs/Waiting.antt`.

ghost use Rattle.std.specs.Prelude.{◌≡◌, IfOk};
ghost use Rattle.tree_calls.specs.Waiting.{file_of, entries_of, spot_of};

use file_tree::pair::NamePair;
use hash_calls::call::Committed;
use lb_base::items::Name;
use nfs3_calls::message::Nfs;
use std::alloc::{AllocError, Global};
use std::marker::Model;
use tree_reading::call::Spot;
use tree_reading::entry::Entry;
use xdr_codec::answer::Answer;

/// What a call was answered, and the entries of the journal that it made, in their order.
#[derive(Drop)]
pub struct Done {
    pub answer: Nfs,
    pub first: Option<Entry>,
    pub second: Option<Entry>,
}

/// A file that is to be removed.
#[derive(Drop)]
pub struct Removing {
    pub spot: Spot,
    /// The id of the file that the name stood for.
    pub file: u64,
}

/// A name that a node is to get in a directory, twice: a store keeps it too. Contracts see it once.
pub struct NewSpot {
    dir: u64,
    name: NamePair,
}

impl Drop for NewSpot {
    fn drop(self) {
        let NewSpot { dir: _, name } = self;
        drop(name);
    }
}

impl Model for NewSpot {
    ghost use Rattle.tree_reading.specs.declared.call.Spot.{Spot};

    ghost Value = { Spot };

    ghost view = { λ s. record { dir = s.dir; name = s.name } };
}

impl NewSpot {
    /// A name in a directory. The one error is running out of memory.
    pub fn new(alloc: Global, dir: u64, name: &Name) -> Result<NewSpot, AllocError>
        ensures { IfOk result (λ s. s ≡ spot_of dir name.now) }
    {
        let name = NamePair::copy_of(alloc, name)?;
        Ok(NewSpot { dir, name })
    }

    /// The directory's id.
    pub fn dir(&self) -> u64
        ensures { result ≡ self.now.dir }
    {
        self.dir
    }

    /// The name.
    pub fn name(&self) -> &[u8]
        ensures { result.now ≡ self.now.name }
    {
        self.name.as_slice()
    }

    /// The directory's id, and the name twice.
    pub fn split(self) -> (u64, NamePair)
        ensures dir { result.0 ≡ self.dir }
        ensures name { result.1 ≡ self.name }
    {
        let NewSpot { dir, name } = self;
        (dir, name)
    }
}

/// A node that is to get the name of a file, which goes.
#[derive(Drop)]
pub struct Renaming {
    pub from: Spot,
    pub to: NewSpot,
    /// The id of the node that the first name stood for.
    pub node: u64,
    /// The id of the file that the second name stood for.
    pub file: u64,
}

/// A pending change.
#[derive(Drop)]
pub enum Asked {
    Remove(Removing),
    Rename(Renaming),
}

impl Asked {
    /// The id of the file that goes.
    pub fn file(&self) -> u64
        ensures { result ≡ file_of self.now }
    {
        match self {
            Asked::Remove(removing) => removing.file,
            Asked::Rename(renaming) => renaming.file,
        }
    }

    /// How many entries of the journal it will make.
    pub fn entries(&self) -> u64
        ensures { result ≡ entries_of self.now }
    {
        match self {
            Asked::Remove(_) => 1,
            Asked::Rename(_) => 2,
        }
    }
}

/// What became of a call.
#[derive(Drop)]
pub enum Outcome {
    /// It is answered.
    Answered(Done),
    /// It waits, and the tree is as it was.
    Waits(Asked),
}

/// What a COMMITTMP was answered once it was made, and the entry of the journal that it made.
#[derive(Drop)]
pub struct Committing {
    pub answer: Answer<Committed, ()>,
    pub entry: Option<Entry>,
}
