//! A bounded index of chunks: places by the keys of their digests, the most recent pair first. The
//! kit's `lru` keeps the pairs.
//!
//! Nobody trusts an index. Two digests may have one key, and a place may say anything, so whoever
//! finds a place hashes the bytes there again before using them.
//!
//! What each call makes of the index is `specs/Index.antt`.
#![tactic(auto)]

pub mod index;
pub mod known;
pub mod place;
pub mod places;
