//! What is kept of a file: its content, and the note of a lease. Of how many files, and which goes
//! first, says `specs/Cache.antt`.

use cut_bytes::CutBytes;

/// A content, as a file had it in a version.
#[derive(Drop)]
pub struct Content {
    /// The version.
    pub version: u64,
    /// The bytes.
    pub bytes: CutBytes,
}

/// The note of a lease.
#[derive(Clone, Copy)]
pub struct Note {
    /// The version that the file had when the lease was granted.
    pub version: u64,
    /// The reading of the client's clock at which the lease is taken to have ended, in milliseconds. It is
    /// a reading and a term, which may pass 64 bits.
    pub until: u128,
}

/// What is kept of a file: a content or none, and a note or none.
#[derive(Drop)]
pub struct Kept {
    /// The content.
    pub content: Option<Content>,
    /// The note.
    pub note: Option<Note>,
}
