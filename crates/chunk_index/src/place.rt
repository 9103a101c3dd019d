//! Where the bytes of a chunk may be found. `specs/Placed.antt` states which bytes lie at a place.

/// A range of a file, which may not be there, nor have so many bytes.
#[derive(Clone, Copy)]
pub struct Place {
    /// The id of the file.
    pub file: u64,
    /// Where the range begins, in bytes.
    pub offset: u64,
    /// Its length, in bytes.
    pub count: u64,
}
