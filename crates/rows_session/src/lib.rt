//! What comes of the rows of sessions: a server without the program around it, over lines in memory.
#![tactic(auto)]

mod gate;
mod hashing;
mod leases;
pub mod rows;
mod sessions;
