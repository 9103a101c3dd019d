//! Entries of the journal, as a change of the tree makes them: `made_entry` and those behind it in
//! `specs/Plans.antt`.

use xdr_codec::digest::Digest;

/// What kind of change was made.
#[derive(Clone, Copy, Drop)]
pub enum EntryKind {
    /// A file was made.
    Make,
    /// A file's content was replaced.
    Commit,
    /// A file was removed.
    Remove,
    /// A directory was made or removed, or a file or directory moved.
    Name,
}

/// A change of a node, without the session that asked for it.
#[derive(Clone, Copy, Drop)]
pub struct Entry {
    /// The id of the file, or of the directory.
    pub file: u64,
    /// The file's version since then; 0 for `Name`.
    pub version: u64,
    pub kind: EntryKind,
    /// How many bytes its content has since then; 0 where it went, and for `Name`.
    pub len: u64,
    /// The SHA-1 digest of that content.
    pub sha1: Digest,
}
