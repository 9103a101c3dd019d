//! The versions of LBFS. `specs/Version.antt` states what differs between them.

/// The first version in which a COMMITTMP names the version of the file that it is to replace.
pub const BASES_SINCE: u32 = 2;

/// The first version in which chunks are named by digests of SHA-256.
pub const LONG_DIGESTS_SINCE: u32 = 3;

/// The first version with LOOKLEASE.
pub const LOOKLEASE_SINCE: u32 = 4;
