//! RPC records of NFS, LBFS and the callback program as typed messages, both ways, and the order in
//! which a record is refused.
#![tactic(auto)]

pub mod fault;
pub mod laws;
pub mod message;
pub mod parse;
pub mod spell;
