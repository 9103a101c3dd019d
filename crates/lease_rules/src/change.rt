//! A pending change: whose leases hold it up, and which others it waits behind
//! (`specs/Changes.antt`).

ghost use Rattle.std.specs.Prelude.{◌≡◌};
ghost use Rattle.lease_rules.specs.Changes.{asker_of, asker, is_about, meets, waits_behind};

use std::alloc::AllocError;

/// What a change does to its file.
#[derive(Clone, Copy)]
pub enum Kind {
    /// COMMITTMP gives it a new content.
    Commit,
    /// REMOVE takes it out of its directory.
    Remove,
    /// RENAME puts something else in its place.
    Rename,
}

impl Kind {
    /// Whose leases don't hold up a change that this session asks for: its own under a COMMITTMP,
    /// and otherwise nobody's, which is session 0's.
    fn asker(self, session: u32) -> u32
        ensures { result ≡ asker_of self session }
    {
        match self {
            Kind::Commit => session,
            Kind::Remove | Kind::Rename => 0,
        }
    }
}

/// A change of a file that waits to be made.
#[derive(Drop)]
pub struct PendingChange<P> {
    /// The session that asked for it.
    pub session: u32,
    /// The xid of its call.
    pub xid: u32,
    /// The id of the file.
    pub file: u64,
    /// What is done to it.
    pub kind: Kind,
    /// How many entries of the journal it will make.
    pub entries: u64,
    /// How many bytes it will add to the tree.
    pub bytes: u64,
    /// What else it takes to make it.
    pub what: P,
}

impl<P> PendingChange<P> {
    /// The session whose leases don't hold it up; 0 where all do.
    pub fn asker(&self) -> u32
        ensures { result ≡ asker self.now }
    {
        self.kind.asker(self.session)
    }

    /// Whether the file is one that it changes.
    pub fn is_about(&self, file: u64) -> bool
        ensures { result ≡ is_about self.now file }
    {
        self.file == file
    }

    /// Whether both change the same file.
    pub fn meets(&self, other: &PendingChange<P>) -> bool
        ensures { result ≡ meets self.now other.now }
    {
        self.is_about(other.file)
    }
}

/// That a session is to be asked for its lease on a file. The server draws the xid.
#[derive(Clone, Copy)]
pub struct Recall {
    /// The session.
    pub session: u32,
    /// The id of the file.
    pub file: u64,
}

/// Whether a change waits behind one that came earlier.
pub fn waits_behind<P>(earlier: &[PendingChange<P>], change: &PendingChange<P>) -> bool
    ensures { result ≡ waits_behind earlier.now change.now }
{
    earlier.iter().any(|other| other.meets(change))
}
