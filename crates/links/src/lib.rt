//! The outside of a running server and of a mount: links to peers, the network that gives them,
//! files of the host, a clock and a rest. Each is a trait; those that can fail count their faults,
//! as sources and sinks do. Beside them stand files in memory that meet theirs.
#![tactic(auto)]

pub mod calls;
pub mod clock;
pub mod files;
pub mod link;
pub mod mem_files;
pub mod network;
pub mod rest;
