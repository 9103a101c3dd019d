//! What changes a tree, and what a change came to: `specs/Plans.antt`.

use crate::entry::Entry;
use lb_base::items::Name;

/// How a file is made (RFC 1813, section 3.3.8: createmode3).
#[derive(Clone, Copy, Drop)]
pub enum CreateMode {
    /// Also where the name is taken by a file, which then stays as it is.
    Unchecked,
    /// Not where the name is taken.
    Guarded,
    /// Isn't supported.
    Exclusive,
}

/// How many entries and bytes the pending changes will need, but for the change that is made.
#[derive(Clone, Copy, Drop)]
pub struct Reservation {
    pub entries: u64,
    pub bytes: u64,
}

/// A name in a directory.
#[derive(Drop)]
pub struct Spot {
    /// The directory's id.
    pub dir: u64,
    pub name: Name,
}

/// A call that changes the tree.
#[derive(Drop)]
pub enum Call {
    Create(Spot, CreateMode),
    MkDir(Spot),
    Remove(Spot),
    RmDir(Spot),
    Rename(Spot, Spot),
    /// The file of an id gets a content of so many bytes.
    Replace(u64, u64),
}

/// What a change came to.
#[derive(Clone, Copy, Drop)]
pub struct Changed {
    /// The node that was made, removed, moved or replaced.
    pub id: u64,
    /// Its version, as `Node` has it; a removed one's is its last.
    pub version: u64,
    /// The entries that the change makes, in order.
    pub first: Option<Entry>,
    pub second: Option<Entry>,
}

/// What a RENAME comes to.
#[derive(Clone, Copy, Drop)]
pub enum Planned {
    /// One node has both names: nothing is to be done.
    Nothing(Changed),
    /// The new name is free.
    Free(Changed),
    /// The node of the new name goes.
    Over(Changed),
}
