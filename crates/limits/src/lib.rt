//! The limits of the protocol, each once. Rust cites them from here, and so do definitions and
//! clauses, by `Rattle.limits.specs.declared.TheConstants`: a constant is a definition there, which
//! computes.
//!
//! A name in the singular is a size in bytes, one in the plural a number of such things. Where a
//! standard gives a limit it is named; all others are this project's own. What only happens to be
//! the same number, as the room of a buffer, has a name of its own where it is used.
#![tactic(auto)]

// ---- files and the tree

/// The most bytes of a file.
pub const FILE_MOST: u64 = 67_108_864;

/// The most bytes that the contents of all files may have, with the sizes of the pending changes.
pub const TREE_MOST: u64 = 1_073_741_824;

/// How many changes of the tree there may ever be: entries of the journal, with those of the
/// pending changes.
pub const CHANGES_MOST: u64 = 4_294_967_295;

/// The most bytes of a name in a directory.
pub const NAME_MOST: usize = 255;

/// The most names in a path.
pub const PATH_NAMES_MOST: usize = 64;

// ---- chunks

/// The least bytes of a chunk, other than a content's last (LBFS paper, SOSP 2001,
/// section 3.1: the minimum chunk size).
pub const CHUNK_LEAST: u32 = 2_048;

/// The most bytes of a chunk (LBFS paper, SOSP 2001, section 3.1: the maximum chunk size).
pub const CHUNK_MOST: u32 = 65_536;

/// The bytes of the window whose fingerprint may end a chunk (LBFS paper, SOSP 2001, section 3.1:
/// the 48-byte region).
pub const WINDOW: usize = 48;

// ---- calls

/// The most bytes that one READ gives, one TMPWRITE carries, and one CONDWRITE names.
pub const PIECE_MOST: u32 = 65_536;

/// The most bytes of a READDIR's result: where a call asks for more, this is what it asks for.
pub const LISTING_MOST: u32 = 65_536;

/// The most pairs of a digest and a size in one GETHASH answer.
pub const PAIRS_MOST: u32 = 1_024;

/// The most bytes of a handle (RFC 1813, section 2.4: NFS3_FHSIZE).
pub const HANDLE_MOST: u32 = 64;

/// The most temporary files that a session may have at once.
pub const TEMPS_MOST: usize = 16;

// ---- records and connections

/// The most bytes of a record, over all its fragments and without their headers.
pub const RECORD_MOST: usize = 131_072;

/// The most fragments of a record, empty ones too.
pub const FRAGMENTS_MOST: u32 = 1_024;

/// The most bytes in the body of an authentication item (RFC 5531, section 8.2: opaque_auth).
pub const AUTH_MOST: u32 = 400;

/// The most sessions of a server at once.
pub const SESSIONS_MOST: usize = 64;

/// How many sessions a server may ever have.
pub const SESSIONS_EVER_MOST: u64 = 4_294_967_295;

/// How many transaction numbers (xids) each end of a session may use: 1 is the first.
pub const XIDS_MOST: u32 = 4_294_967_295;

// ---- what an end keeps

/// The most entries of an index of chunks, at either end.
pub const INDEX_MOST: usize = 65_536;

/// The most files whose contents a client keeps.
pub const CACHE_FILES_MOST: usize = 256;

/// How often a client tries to open a file, the first time too.
pub const ATTEMPTS_MOST: u32 = 4;

// ---- time

/// The longest term of a lease, in milliseconds.
pub const TERM_MOST: u64 = 3_600_000;

/// The most by which the server's clock may be said to gain on a client's within a term, in
/// milliseconds.
pub const DRIFT_MOST: u64 = 3_600_000;

/// The last reading of a clock, in milliseconds: 2 ^ 63 - 1.
pub const READING_MOST: u64 = 9_223_372_036_854_775_807;

// ---- input

/// The most bytes of input of any command.
pub const INPUT_MOST: usize = 67_108_864;

/// The most lines of a trace, empty ones and comments too.
pub const LINES_MOST: u64 = 65_536;

/// The most clients of a trace.
pub const CLIENTS_MOST: u64 = 16;
