//! Messages of Sun RPC (RFC 5531) over a stream of bytes: records and their fragments, and the
//! headers of calls and replies.
#![tactic(auto)]

mod fragments;
pub mod header;
pub mod laws;
pub mod marking;
pub mod messages;
pub mod record;
pub mod records;
pub mod refusal;
