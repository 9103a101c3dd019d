//! What a client keeps of files: their contents, and the notes of its leases.
//!
//! A content is kept with its version, so that a later open that hears the same version needs no byte
//! of it. A note says which version a lease was granted with, and until when: while it lasts, a
//! content of that version is the file's, and an open needs no message.
//!
//! What each call makes of the cache is `specs/Cache.antt`.
#![tactic(auto)]

pub mod cache;
pub mod kept;
