//! XDR items: formats as values with laws, a reader and a writer, and the parts of messages that
//! NFS and LBFS share.
#![tactic(auto)]

pub mod answer;
pub mod attr;
pub mod digest;
pub mod fault;
mod filling;
pub mod handle;
pub mod item;
pub mod laws;
pub mod program;
pub mod reader;
pub mod status;
pub mod writer;
