//! The calls of NFS version 3 (RFC 1813), program 100003: arguments and answers as values, read
//! from a record and written to it.
#![tactic(auto)]

pub mod call;
pub mod change;
pub mod fs_info;
pub mod listing;
pub mod making;
pub mod message;
pub mod nfs;
pub mod place;
