//! The store that keeps a tree: its records, the changes that are written to it, the trait that a
//! store meets, and stores in memory. What a change does to the records, `specs/Records.antt`
//! states.
#![tactic(auto)]

pub mod edits;
pub mod mem_store;
pub mod record;
pub mod store;
