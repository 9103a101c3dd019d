//! The journal: the changes that were made, in order. `entry_by` in `specs/Closing.antt` says what an
//! entry tells.

use tree_reading::entry::EntryKind;
use xdr_codec::digest::Digest;

/// A change that was made.
#[derive(Clone, Copy)]
pub struct Entry {
    /// The id of the file, or of the directory.
    pub file: u64,
    /// The file's version since then; 0 for `Name`.
    pub version: u64,
    pub kind: EntryKind,
    /// How many bytes its content has since then; 0 where it went, and for `Name`.
    pub len: u64,
    /// The SHA-1 digest of that content.
    pub sha1: Digest,
    /// The session that asked for the change.
    pub session: u32,
}
